// The notation: what each byte stands for, and the character of each step.
ghost use Rattle.std.specs.Prelude.{◌≡◌, ℕ, MatchOption};
ghost use Rattle.formula.specs.Notation.{notation, Shows};

use crate::steps::{Leaf, Operator, Step, Token};

impl From<u8> for Token {
    ghost from_gives = { λ b token. token ≡ notation b };

    fn from(b: u8) -> Self {
        match b {
            b'&' => Token::Infix(5, Operator::And),
            b'^' => Token::Infix(4, Operator::Xor),
            b'|' => Token::Infix(3, Operator::Or),
            b'>' => Token::Infix(2, Operator::Implies),
            b'=' => Token::Infix(1, Operator::Iff),
            b'!' => Token::Negation,
            b'(' => Token::Opening,
            b')' => Token::Closing,
            b'0' => Token::Operand(Leaf::Constant(false)),
            b'1' => Token::Operand(Leaf::Constant(true)),
            b'a'..=b'l' => Token::Operand(Leaf::Option(b - b'a' + 1)),
            _ => Token::Foreign,
        }
    }
}

impl Step {
    // Every step of a formula has one; an option number outside 1 to 12 has none.
    pub fn symbol(self) -> Option<u8>
        ensures { MatchOption result ((b : ℕ) → Shows b self → ⊥) (λ b. Shows b self) }
    {
        match self {
            Step::Load(Leaf::Constant(false)) => Some(b'0'),
            Step::Load(Leaf::Constant(true)) => Some(b'1'),
            Step::Load(Leaf::Option(k)) => letter(k),
            Step::Negate => Some(b'!'),
            Step::Apply(Operator::And) => Some(b'&'),
            Step::Apply(Operator::Xor) => Some(b'^'),
            Step::Apply(Operator::Or) => Some(b'|'),
            Step::Apply(Operator::Implies) => Some(b'>'),
            Step::Apply(Operator::Iff) => Some(b'='),
        }
    }
}

fn letter(k: u8) -> Option<u8>
    ensures { MatchOption result ((b : ℕ) → Shows b (Step.Load (Leaf.Option k)) → ⊥) (λ b. Shows b (Step.Load (Leaf.Option k))) }
{
    if k < 1 || k > 12 {
        return None;
    }
    Some(b'a' + (k - 1))
}
