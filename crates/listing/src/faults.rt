ghost use Rattle.std.specs.Prelude.{◌≡◌};
ghost use Rattle.listing.specs.Faults.{fault_number, fault_place};

// Its own type, since a list is refused in no other way.
#[derive(Clone, Copy, PartialEq, Eq, Debug)]
pub enum ListFault {
    ShortOutput,
}

impl ListFault {
    // The number that price lists have for this fault, here as in every enum of faults.
    pub fn number(self) -> u8
        ensures { result ≡ fault_number self }
    {
        match self {
            ListFault::ShortOutput => 15,
        }
    }

    // The fault has no place in a text.
    pub fn place(self) -> usize
        ensures { result ≡ fault_place self }
    {
        match self {
            ListFault::ShortOutput => 0,
        }
    }
}
