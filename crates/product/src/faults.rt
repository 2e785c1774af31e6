ghost use Rattle.std.specs.Prelude.{◌≡◌};
ghost use Rattle.product.specs.Faults.{fault_number, fault_place};

#[derive(Clone, Copy, PartialEq, Eq, Debug)]
pub enum ProductFault {
    NotProduct,
    ShortOutput,
}

impl ProductFault {
    // The number by which callers in C and price lists know the fault.
    pub fn number(self) -> u8
        ensures { result ≡ fault_number self }
    {
        match self {
            ProductFault::NotProduct => 5,
            ProductFault::ShortOutput => 15,
        }
    }

    // Neither fault has a place in a text.
    pub fn place(self) -> usize
        ensures { result ≡ fault_place self }
    {
        match self {
            ProductFault::NotProduct => 0,
            ProductFault::ShortOutput => 0,
        }
    }
}
