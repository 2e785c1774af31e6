// The rules of a record's fields.
ghost use Rattle.std.specs.Prelude.{◌+◌, ◌≤◌, ◌↔◌, length, IsTrue, MatchOption, MatchResult};
ghost use Rattle.card_text.specs.Card.{Plain, Within, Loose, AllGiven, IsFormula};
ghost use Rattle.card_text.specs.Faults.{First, Misread};

use crate::faults::TextFault;
use formula::Formula;

// Whether a title or a name may hold the byte.
fn is_plain(b: u8) -> bool
    ensures { IsTrue result ↔ Plain b }
{
    matches!(b, b' '..=b'~') && b != b','
}

// Whether a title or a name keeps its rule.
pub fn keeps_rule(bytes: &[u8], least: usize, most: usize) -> bool
    ensures { IsTrue result ↔ Within least most bytes.now }
{
    if bytes.len() < least || bytes.len() > most {
        return false;
    }
    // A loop that leaves at the first offending byte: one of the forms that the code is to have (docs/DECISIONS.md).
    for b in bytes {
        if !is_plain(*b) {
            return false;
        }
    }
    true
}

// Whether the byte is a letter of the notation that no OPT has given.
fn is_loose(b: u8, options: usize) -> bool
    requires { options ≤ 12 }
    ensures { IsTrue result ↔ Loose options b }
{
    b'a' as usize + options <= b as usize && b <= b'l'
}

// The first place of a letter that no OPT has given.
fn loose_letter(formula: &[u8], options: usize) -> Option<usize>
    requires { options ≤ 12 }
    ensures { MatchOption result (AllGiven options formula.now) (λ i. First options formula.now i) }
{
    formula.iter().position(|b| is_loose(*b, options))
}

// Whether a formula stands at `at`, all of its letters given by an OPT.
pub fn judge_formula(formula: &[u8], at: usize, options: usize) -> Result<(), TextFault>
    requires near { at + length formula.now ≤ 4096 }
    requires few { options ≤ 12 }
    ensures { MatchResult result (λ _. IsFormula formula.now × AllGiven options formula.now) (λ e. Misread options formula.now at e) }
{
    match Formula::try_from(formula) {
        Ok(_) => match loose_letter(formula, options) {
            Some(i) => Err(TextFault::LooseLetter(at + i)),
            None => Ok(()),
        },
        Err(fault) => Err(TextFault::Formula { fault, at }),
    }
}
