use arrayvec::ArrayVec;

// The bytes that a text may have; each gives a step at most.
pub const MAX_LENGTH: usize = 4096;

// What a formula is built from: a constant, or an option by its number (1 for a, 12 for l).
#[derive(Clone, Copy, PartialEq, Eq, Debug)]
pub enum Leaf {
    Constant(bool),
    Option(u8),
}

// An operator between two operands.
#[derive(Clone, Copy, PartialEq, Eq, Hash, Debug)]
pub enum Operator {
    And,
    Xor,
    Or,
    Implies,
    Iff,
}

// One step of a formula in postfix form, on a stack of values.
#[derive(Clone, Copy, Default, PartialEq, Eq, Debug)]
pub enum Step {
    Load(Leaf),
    #[default]
    Negate,
    Apply(Operator),
}

// What a byte stands for in the notation; an infix operator has its binding strength, 5 the tightest.
#[derive(Clone, Copy, PartialEq, Eq)]
pub enum Token {
    Operand(Leaf),
    Negation,
    Infix(u8, Operator),
    Opening,
    Closing,
    Foreign,
}

// The steps of a formula.
pub type Steps = ArrayVec<Step, MAX_LENGTH>;
