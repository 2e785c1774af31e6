// What has been read of a card, record by record.
ghost use Rattle.std.specs.Prelude.{◌≡◌, ◌↔◌, [], length, IsTrue};
ghost use Rattle.card_text.specs.Card.{Fresh, Fits, add_name, add_title, stage_of, mark};
ghost use Rattle.card_text.specs.Reads.{row_of};
ghost use Rattle.card_text.specs.State.{held};
ghost use Rattle.card_text.specs.declared.state.Stage.TheVariants.{Start};

use crate::records::Record;
use arrayvec::ArrayVec;

// How far a card has come: nothing, CARD or OPT, USE, or END was read last.
#[derive(Clone, Copy, PartialEq, Eq)]
pub enum Stage {
    Start,
    Options,
    Uses,
    Done,
}

// The stage, the names of the options, the title, and the place behind the last CARD or OPT record.
#[derive(Drop)]
pub struct Seen<'a> {
    pub stage: Stage,
    pub names: ArrayVec<&'a [u8], 12>,
    pub title: &'a [u8],
    pub uses: usize,
}

impl<'a> Seen<'a> {
    pub fn new() -> Self
        ensures stage { result.stage ≡ Start }
        ensures names { held result ≡ [] }
        ensures title { result.title.now ≡ [] }
        ensures uses { result.uses ≡ 0 }
    {
        Seen {
            stage: Stage::Start,
            names: ArrayVec::new(),
            title: &[],
            uses: 0,
        }
    }

    // Whether no earlier option has the name.
    pub fn is_fresh(&self, name: &[u8]) -> bool
        ensures { IsTrue result ↔ Fresh (held self.now) name.now }
    {
        !self.names.iter().any(|other| *other == name)
    }

    // Whether a record may stand next.
    pub fn is_next(&self, found: Record<'_>) -> bool
        ensures { IsTrue result ↔ Fits self.now.stage (length (held self.now)) (row_of found.entry) }
    {
        let options = self.names.len();
        match found {
            Record::Card { title: _ } => self.stage == Stage::Start,
            Record::Opt { letter, name: _ } => {
                self.stage == Stage::Options
                    && options < 12
                    && letter as usize == b'a' as usize + options
            }
            Record::Use { formula: _ } => self.stage == Stage::Options || self.stage == Stage::Uses,
            Record::End => self.stage == Stage::Uses,
        }
    }

    // Takes a record that stands in order, and ends at `to`.
    pub fn note(&mut self, found: Record<'a>, to: usize)
        requires { Fits self.old.stage (length (held self.old)) (row_of found) }
        ensures names { held self.new ≡ add_name (held self.old) (row_of found.entry) }
        ensures stage { self.new.stage ≡ stage_of (row_of found.entry) }
        ensures title { self.new.title.now ≡ add_title self.old.title.now (row_of found.entry) }
        ensures uses { self.new.uses ≡ mark self.old.uses (row_of found.entry) to }
    {
        match found {
            Record::Card { title } => {
                self.stage = Stage::Options;
                self.title = title.bytes;
                self.uses = to;
            }
            Record::Opt { letter: _, name } => {
                self.names.push(name.bytes);
                self.stage = Stage::Options;
                self.uses = to;
            }
            Record::Use { formula: _ } => self.stage = Stage::Uses,
            Record::End => self.stage = Stage::Done,
        }
    }
}
