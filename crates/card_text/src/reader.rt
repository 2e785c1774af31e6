// Reads a card text record by record; the leftmost faulty record decides.
ghost use Rattle.std.specs.Prelude.{ℕ, ◌≤◌, length, MatchResult};
ghost use Rattle.card_text.specs.Card.{Ruled, Meant};
ghost use Rattle.card_text.specs.Faults.{Wrong, Refused};
ghost use Rattle.card_text.specs.Reads.{row_of, Placed, Outlined};
ghost use Rattle.card_text.specs.State.{held, Near};
ghost use Rattle.card_text.specs.Steps.{Steps};

use crate::faults::{MAX_LENGTH, TextFault};
use crate::fields::{judge_formula, keeps_rule};
use crate::records::{Part, Record, record_at};
use crate::state::{Seen, Stage};

const MAX_TITLE: usize = 40;

const MAX_NAME: usize = 20;

// What a card holds: its title, the number of its options, and where its first USE record begins.
#[derive(Clone, Copy)]
pub struct Outline<'a> {
    pub title: Part<'a>,
    pub options: usize,
    pub uses: usize,
}

impl<'a> Seen<'a> {
    // What is wrong inside a record that stands in order.
    fn judge(&self, found: Record<'_>) -> Result<(), TextFault>
        requires { Near found }
        ensures { MatchResult result (λ _. Ruled (held self.now) (row_of found.entry) × Meant (held self.now) (row_of found.entry)) (λ e. (at : ℕ) → Placed at found.entry → Wrong (held self.now) (row_of found.entry) at e) }
    {
        match found {
            Record::Card { title } => {
                if keeps_rule(title.bytes, 0, MAX_TITLE) {
                    Ok(())
                } else {
                    Err(TextFault::Field(title.at))
                }
            }
            Record::Opt { letter: _, name } => {
                if keeps_rule(name.bytes, 1, MAX_NAME) && self.is_fresh(name.bytes) {
                    Ok(())
                } else {
                    Err(TextFault::Field(name.at))
                }
            }
            Record::Use { formula } => {
                judge_formula(formula.bytes, formula.at, self.names.len())
            }
            Record::End => Ok(()),
        }
    }

    // Reads the record at `at`, and answers the place behind it.
    fn advance(&mut self, text: &'a [u8], at: usize) -> Result<usize, TextFault>
        requires inside { at ≤ length text.now }
        requires short { length text.now ≤ 4096 }
        ensures { Steps text.now at self.old self.new result }
    {
        let Some(found) = record_at(text, at) else {
            return Err(TextFault::Form(at));
        };
        if !self.is_next(found.record) {
            return Err(TextFault::Form(at));
        }
        self.judge(found.record)?;
        self.note(found.record, found.to);
        Ok(found.to)
    }
}

// Reads a card text.
pub fn read_card(text: &[u8]) -> Result<Outline<'_>, TextFault>
    ensures { MatchResult result (λ o. Outlined text.now o) (λ e. Refused text.now e) }
{
    if text.len() > MAX_LENGTH {
        return Err(TextFault::TooLong);
    }
    let mut seen = Seen::new();
    let mut at = 0;
    // What may stand next depends on what was read, so the place moves together with the state.
    while at < text.len() {
        at = seen.advance(text, at)?;
    }
    if seen.stage != Stage::Done {
        return Err(TextFault::Form(at));
    }
    Ok(Outline {
        title: Part {
            at: 7,
            bytes: seen.title,
        },
        options: seen.names.len(),
        uses: seen.uses,
    })
}
