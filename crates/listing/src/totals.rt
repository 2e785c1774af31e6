ghost use Rattle.std.specs.Prelude.{◌≡◌, ◌≤◌, length};
ghost use Rattle.decimal.specs.Outputs.{HasRoom, Puts};
ghost use Rattle.listing.specs.Listing.{last_row};
ghost use Rattle.listing.specs.Received.{Grown};

use crate::rows::put_field;
use decimal::{Output, digits};

// The bytes of the last row beside its numbers: N, two commas and the line feed.
const LAST_FRAME: usize = 4;

// How many bytes the rows take, and what the last row says: how many products there are, and how many of them are essential.
#[derive(Clone, Copy, Default)]
pub(crate) struct Totals {
    pub(crate) bytes: usize,
    primes: u32,
    essential: u32,
}

impl Totals {
    // Adds a row of `len` bytes; each total stops at the most that it holds.
    pub(crate) fn add(&mut self, len: usize, marked: bool)
        ensures { Grown len marked self.old self.new }
    {
        self.bytes = self.bytes.saturating_add(len);
        self.primes = self.primes.saturating_add(1);
        self.essential = self.essential.saturating_add(u32::from(marked));
    }

    // How many bytes the last row takes.
    pub(crate) fn last_len(self) -> usize
        ensures count { result ≡ length (last_row self.primes self.essential) }
        ensures few { result ≤ 24 }
    {
        digits(self.primes) + digits(self.essential) + LAST_FRAME
    }

    // Writes the last row.
    #[tactic(auto, using(crate::proofs::Rowing::last_length))]
    pub(crate) fn put_last(self, output: &mut Output)
        requires { HasRoom output.old (length (last_row self.primes self.essential)) }
        ensures { Puts (last_row self.primes self.essential) output.old output.new }
    {
        output.bytes(b"N,");
        put_field(output, self.primes);
        output.decimal(self.essential);
        output.byte(b'\n');
    }
}
