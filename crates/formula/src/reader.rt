// Reads a text into postfix steps, one token after the other. The rules require the recursion on bracket depth and binding strength.
ghost use Rattle.std.specs.Prelude.{◌≡◌, ℕ, ◌+◌, ◌<◌, ◌≤◌, false, ◌++◌, length, replicate, MatchResult, ◌≢◌, slice_index};
ghost use Rattle.arrayvec.specs.ArrayVec.{array_vec_len};
ghost use Rattle.formula.specs.declared.steps.Leaf.TheVariants.{Constant};
ghost use Rattle.formula.specs.declared.steps.Token.TheVariants.{Negation};
ghost use Rattle.formula.specs.Notation.{notation};
ghost use Rattle.formula.specs.Grammar.{leaf, postfix};
ghost use Rattle.formula.specs.Faults.{fault_place};
ghost use Rattle.formula.specs.Answer.{steps_of, Read, Refused};
ghost use Rattle.formula.specs.Reads.{Reads, Fails, Plain, After};

use crate::faults::FormulaFault;
use crate::steps::{Leaf, MAX_LENGTH, Step, Steps, Token};
use crate::stored::Formula;

const MAX_NESTING: usize = 32;

// How many `!` stand at `at`; a text may have thousands in a row.
fn negations(text: &[u8], at: usize) -> usize
    requires { at ≤ length text.now }
    ensures within { at + result ≤ length text.now }
    ensures all { (k : ℕ) → k < result → notation (slice_index text.now (at + k)) ≡ Negation }
    ensures over { at + result < length text.now → notation (slice_index text.now (at + result)) ≢ Negation }
{
    text[at..]
        .iter()
        .take_while(|b| matches!(Token::from(**b), Token::Negation))
        .count()
}

// A loop, since `extend` would answer a failure that cannot come.
fn push_negations(out: &mut Steps, n: usize)
    requires { array_vec_len out.old + n ≤ 4096 }
    ensures { out.new.items ≡ out.old.items ++ replicate n Step.Negate }
{
    for _ in 0..n {
        out.push(Step::Negate);
    }
}

// The fault of the byte at `at`, or of the text's end there, where nothing fits.
fn unexpected(text: &[u8], at: usize) -> FormulaFault
    ensures { (fault_place result ≡ at) × Plain text.now result }
{
    match text.get(at) {
        Some(b) if Token::from(*b) == Token::Foreign => FormulaFault::ForeignByte(at),
        _ => FormulaFault::Unexpected(at),
    }
}

// A letter, a constant or a formula in brackets; no `!` stands at `at`.
#[cycle(level_operand_primary)]
fn primary(text: &[u8], at: usize, depth: usize, out: &mut Steps) -> Result<usize, FormulaFault>
    requires short { length text.now ≤ 4096 }
    requires within { at ≤ length text.now }
    requires room { array_vec_len out.old ≤ at }
    requires deep { depth ≤ 32 }
    requires plain { at < length text.now → notation (slice_index text.now at) ≢ Negation }
    ensures { MatchResult result (λ n. Reads text.now at depth 6 6 out.old.items out.new.items n) (λ e. Fails text.now at depth 6 e) }
{
    if at >= text.len() {
        return Err(unexpected(text, at));
    }
    match Token::from(text[at]) {
        Token::Opening => {
            if depth >= MAX_NESTING {
                return Err(FormulaFault::TooDeep(at));
            }
            let q = level(text, at + 1, depth + 1, 1, out)?;
            if q < text.len() && Token::from(text[q]) == Token::Closing {
                Ok(q + 1)
            } else {
                Err(unexpected(text, q))
            }
        }
        Token::Operand(a) => {
            out.push(Step::Load(a));
            Ok(at + 1)
        }
        _ => Err(unexpected(text, at)),
    }
}

// An operand: its `!`s and what they stand before.
#[cycle(level_operand_primary)]
fn operand(text: &[u8], at: usize, depth: usize, out: &mut Steps) -> Result<usize, FormulaFault>
    requires short { length text.now ≤ 4096 }
    requires within { at ≤ length text.now }
    requires room { array_vec_len out.old ≤ at }
    requires deep { depth ≤ 32 }
    ensures { MatchResult result (λ n. Reads text.now at depth 6 6 out.old.items out.new.items n) (λ e. Fails text.now at depth 6 e) }
{
    let n = negations(text, at);
    let q = primary(text, at + n, depth, out)?;
    push_negations(out, n);
    Ok(q)
}

// Reads from `at` a formula whose operators outside brackets bind at least as strongly as `floor`.
#[cycle(level_operand_primary)]
fn level(
    text: &[u8],
    at: usize,
    depth: usize,
    floor: u8,
    out: &mut Steps,
) -> Result<usize, FormulaFault>
    requires short { length text.now ≤ 4096 }
    requires within { at ≤ length text.now }
    requires room { array_vec_len out.old ≤ at }
    requires deep { depth ≤ 32 }
    requires strong { floor ≤ 6 }
    ensures { MatchResult result (λ n. Reads text.now at depth floor floor out.old.items out.new.items n) (λ e. Fails text.now at depth floor e) }
{
    let mut p = operand(text, at, depth, out)?;
    let mut top = 5;
    // The place moves by what an operand took, which only the recursion knows.
    while p < text.len() {
        let Token::Infix(k, op) = Token::from(text[p]) else {
            break;
        };
        if k < floor || k > top {
            break;
        }
        p = level(text, p + 1, depth, k + 1, out)?;
        out.push(Step::Apply(op));
        top = after(k);
    }
    Ok(p)
}

// The strongest operator that may follow one of strength `k` and its operands: the loosest two do not chain.
fn after(k: u8) -> u8
    requires { 1 ≤ k }
    ensures { After k result }
{
    if k < 3 { k - 1 } else { k }
}

impl TryFrom<&[u8]> for Formula {
    type Error = FormulaFault;

    ghost try_from_gives = { λ text r. MatchResult r (λ f. Read text.now f) (λ e. Refused text.now e) };

    fn try_from(text: &[u8]) -> Result<Self, FormulaFault> {
        if text.len() > MAX_LENGTH {
            return Err(FormulaFault::TooLong);
        }
        let mut steps = Steps::new();
        let end = level(text, 0, 0, 1, &mut steps)?;
        if end < text.len() {
            return Err(unexpected(text, end));
        }
        Ok(Formula { steps })
    }
}

impl Formula {
    // The formula `0`, for `read` to write over.
    pub fn new() -> Self
        ensures { steps_of result ≡ postfix (leaf (Constant false)) }
    {
        let mut steps = Steps::new();
        steps.push(Step::Load(Leaf::Constant(false)));
        Formula { steps }
    }

    // Reads a text; refused, the formula is as it was.
    pub fn read(&mut self, text: &[u8]) -> Result<(), FormulaFault>
        ensures { MatchResult result (λ _. Read text.now self.new) (λ e. Refused text.now e × (self.new ≡ self.old)) }
    {
        *self = Formula::try_from(text)?;
        Ok(())
    }

    // The steps, in the order in which they are run.
    pub fn steps(&self) -> &[Step]
        ensures { result.now ≡ steps_of self.now }
    {
        self.steps.as_slice()
    }
}
