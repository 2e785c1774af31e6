// The records of a text, each found where it begins.
ghost use Rattle.std.specs.Prelude.{◌≡◌, ℕ, ◌+◌, ◌-◌, ◌^◌, ◌<◌, List, ◌++◌, length, take, MatchOption, ◌≢◌, slice_index};
ghost use Rattle.card_text.specs.Grammar.{Row, opt_row, spell, NoFeed};
ghost use Rattle.card_text.specs.Reads.{row_of, Placed, RecordAt, NoRecord, UseAt, NoUse, NextUse};
ghost use Rattle.std.specs.Iterator.{at_most};

// A part of a text, with the place of its first byte.
#[derive(Clone, Copy)]
pub struct Part<'a> {
    pub at: usize,
    pub bytes: &'a [u8],
}

#[derive(Clone, Copy)]
pub enum Record<'a> {
    Card { title: Part<'a> },
    Opt { letter: u8, name: Part<'a> },
    Use { formula: Part<'a> },
    End,
}

// A record, and the place behind its line feed.
#[derive(Clone, Copy)]
pub struct Found<'a> {
    pub record: Record<'a>,
    pub to: usize,
}

// A USE record's formula, and the place behind the record's line feed.
#[derive(Clone, Copy)]
pub struct Use<'a> {
    pub formula: Part<'a>,
    pub to: usize,
}

// The length of the first line, where a line feed ends it.
fn line_length(text: &[u8]) -> Option<usize>
    ensures { MatchOption result (NoFeed text.now) (λ n. (n < length text.now) × (slice_index text.now n ≡ 10) × NoFeed (take n text.now)) }
{
    text.iter().position(|b| *b == b'\n')
}

// What stands behind a word at the start of a line; what `strip_prefix` says of it is proved once, here.
fn behind<'a>(line: &'a [u8], word: &[u8]) -> Option<&'a [u8]>
    ensures { MatchOption result ((rest : List ℕ) → line.now ≢ word.now ++ rest) (λ x. line.now ≡ word.now ++ x.now) }
{
    line.strip_prefix(word)
}

// The letter and the name, where the line is an OPT record.
fn option_on(line: &[u8]) -> Option<(u8, &[u8])>
    ensures { MatchOption result ((letter : ℕ) (name : List ℕ) → line.now ≢ spell (opt_row letter name)) (λ o. line.now ≡ spell (opt_row o.0 o.1.now)) }
{
    let [letter, b',', name @ ..] = behind(line, b"OPT,")? else {
        return None;
    };
    Some((*letter, name))
}

// The record on a line that begins at `at`.
fn record_on(line: &[u8], at: usize) -> Option<Record<'_>>
    requires { at + length line.now < 2 ^ 64 }
    ensures { MatchOption result ((row : Row) → line.now ≢ spell row) (λ x. (line.now ≡ spell (row_of x)) × Placed at x) }
{
    if let Some(title) = behind(line, b"CARD,1,") {
        return Some(Record::Card {
            title: Part {
                at: at + 7,
                bytes: title,
            },
        });
    }
    if let Some((letter, name)) = option_on(line) {
        return Some(Record::Opt {
            letter,
            name: Part {
                at: at + 6,
                bytes: name,
            },
        });
    }
    if let Some(formula) = behind(line, b"USE,") {
        return Some(Record::Use {
            formula: Part {
                at: at + 4,
                bytes: formula,
            },
        });
    }
    match line {
        b"END" => Some(Record::End),
        _ => None,
    }
}

// The record that begins at `at` and ends with a line feed, whatever stands before it.
pub fn record_at(text: &[u8], at: usize) -> Option<Found<'_>>
    ensures { MatchOption result (NoRecord text.now at) (λ x. RecordAt text.now at x) }
{
    let rest = text.get(at..)?;
    let n = line_length(rest)?;
    let record = record_on(&rest[0..n], at)?;
    Some(Found {
        record,
        to: at + n + 1,
    })
}

// The USE record that begins at `at`.
pub fn use_at(text: &[u8], at: usize) -> Option<Use<'_>>
    ensures { MatchOption result (NoUse text.now at) (λ u. UseAt text.now at u) }
{
    let Found { record, to } = record_at(text, at)?;
    match record {
        Record::Use { formula } => Some(Use { formula, to }),
        _ => None,
    }
}

// The formulas of the USE records that follow one another from `at` on.
#[derive(Drop)]
pub struct Uses<'a> {
    pub text: &'a [u8],
    pub at: usize,
}

impl<'a> Uses<'a> {
    pub fn new(text: &'a [u8], at: usize) -> Self
        ensures text { result.text.now ≡ text.now }
        ensures at { result.at ≡ at }
    {
        Uses { text, at }
    }
}

impl<'a> Iterator for Uses<'a> {
    type Item = Part<'a>;

    ghost next_gives = { NextUse };

    ghost remaining = { λ uses. at_most (length uses.text.now - uses.at) };

    fn next(&mut self) -> Option<Part<'a>> {
        let Use { formula, to } = use_at(self.text, self.at)?;
        self.at = to;
        Some(formula)
    }
}
