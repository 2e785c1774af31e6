ghost use Rattle.std.specs.Prelude.{◌≡◌};
ghost use Rattle.card_text.specs.Faults.{text_number, text_place};

use formula::FormulaFault;

// The bytes that a card may have: a limit of cards, and the same number as that of formulas by chance.
pub const MAX_LENGTH: usize = 4096;

// Why a text is no card. A formula's fault stands whole beside the place where the formula begins; the last three hold the place of the fault in that text.
#[derive(Clone, Copy, PartialEq, Eq, Debug)]
pub enum TextFault {
    TooLong,
    Formula { fault: FormulaFault, at: usize },
    Form(usize),
    Field(usize),
    LooseLetter(usize),
}

// By number and place, since the C editor sees no enum.
impl TextFault {
    // The number by which callers in C and price lists know the fault.
    pub fn number(self) -> u8
        ensures { result ≡ text_number self }
    {
        match self {
            TextFault::TooLong => 1,
            TextFault::Formula { fault, at: _ } => fault.number(),
            TextFault::Form(_) => 6,
            TextFault::Field(_) => 7,
            TextFault::LooseLetter(_) => 8,
        }
    }

    // An offset in the text, from 0 to its length.
    pub fn place(self) -> usize
        ensures { result ≡ text_place self }
    {
        match self {
            TextFault::TooLong => MAX_LENGTH,
            // No fault of a card comes near the limit, but the type allows any place.
            TextFault::Formula { fault, at } => at.saturating_add(fault.place()),
            TextFault::Form(at) => at,
            TextFault::Field(at) => at,
            TextFault::LooseLetter(at) => at,
        }
    }
}
