ghost use Rattle.std.specs.Prelude.{◌≡◌};
ghost use Rattle.formula.specs.Faults.{fault_number, fault_place};

use crate::steps::MAX_LENGTH;

// Why a text is no formula; but for the first, each holds the place of the fault.
#[derive(Clone, Copy, PartialEq, Eq, Debug)]
pub enum FormulaFault {
    TooLong,
    ForeignByte(usize),
    Unexpected(usize),
    TooDeep(usize),
}

// By number and place, since the C editor sees no enum.
impl FormulaFault {
    // The number by which callers in C and price lists know the fault.
    pub fn number(self) -> u8
        ensures { result ≡ fault_number self }
    {
        match self {
            FormulaFault::TooLong => 1,
            FormulaFault::ForeignByte(_) => 2,
            FormulaFault::Unexpected(_) => 3,
            FormulaFault::TooDeep(_) => 4,
        }
    }

    // An offset in the text, from 0 to its length.
    pub fn place(self) -> usize
        ensures { result ≡ fault_place self }
    {
        match self {
            FormulaFault::TooLong => MAX_LENGTH,
            FormulaFault::ForeignByte(at) => at,
            FormulaFault::Unexpected(at) => at,
            FormulaFault::TooDeep(at) => at,
        }
    }
}
