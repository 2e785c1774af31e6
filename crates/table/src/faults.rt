ghost use Rattle.std.specs.Prelude.{◌≡◌};
ghost use Rattle.table.specs.Faults.{number};

// Why a table refuses: the handle is not issued, or is a constant and has no node; the node does not fit; there is no room.
#[derive(Clone, Copy, PartialEq, Eq, Debug)]
pub enum Reason {
    NotIssued,
    IllFormed,
    Full,
}

// A table's refusal: its reason, and the table's size.
#[derive(Clone, Copy, PartialEq, Eq, Debug)]
pub struct TableFault {
    pub reason: Reason,
    pub size: u16,
}

impl TableFault {
    // The number by which callers in C and price lists know the fault.
    pub fn number(self) -> u8
        ensures { result ≡ number self.reason }
    {
        match self.reason {
            Reason::NotIssued => 9,
            Reason::IllFormed => 13,
            Reason::Full => 14,
        }
    }
}
