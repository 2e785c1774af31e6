ghost use Rattle.std.specs.Prelude.{◌≡◌, ◌-◌, ◌^◌, ◌<◌};
ghost use Rattle.set_walk.specs.Begun.{Begun};

use product::{Product, Word};

// What a walk has chosen so far: for how many options, and the masks of their words.
#[derive(Clone, Copy)]
pub(crate) struct Prefix {
    pub(crate) gone: u8,
    named: u16,
    sign: u16,
    ghost begun: { Begun gone named sign },
}

impl Prefix {
    ghost use Rattle.product.specs.Said.{word_of};
    ghost use Rattle.product.specs.Products.{words_of};
    ghost use Rattle.set_walk.specs.Prefixes.{IsEmpty, Longer, whole};

    // The start: nothing is chosen.
    pub(crate) fn new() -> Prefix
        ensures { IsEmpty result }
    {
        Prefix {
            gone: 0,
            named: 0,
            sign: 0,
        }
    }

    // The bit of the next option.
    fn bit(self) -> u16
        requires { self.gone < 12 }
        ensures { result ≡ 2 ^ (11 - self.gone) }
    {
        1u16 << (11 - self.gone)
    }

    // With a word for one option more.
    pub(crate) fn with(self, word: Word) -> Prefix
        requires { self.gone < 12 }
        ensures { Longer self (word_of word) result }
    {
        let bit = self.bit();
        let (named, sign) = match word {
            Word::Absent => (0, 0),
            Word::Refused => (bit, 0),
            Word::Wanted => (bit, bit),
        };
        Prefix {
            gone: self.gone + 1,
            named: self.named + named,
            sign: self.sign + sign,
        }
    }

    // What is chosen, once all options are.
    pub(crate) fn product(self) -> Product
        requires { self.gone ≡ 12 }
        ensures { words_of result ≡ whole self }
    {
        Product::new(self.named, self.sign).unwrap()
    }
}
