// A product of literals over the twelve options: a line of a card, kept as two masks.
#![tactic(auto)]

ghost use Rattle.std.specs.Prelude.{◌≡◌, ◌^◌, ◌<◌, ◌≤◌, length, count_ones};
ghost use Rattle.product.specs.declared.masks.Product.{Product};
ghost use Rattle.product.specs.Bits.{bit};
ghost use Rattle.product.specs.Masks.{word};
ghost use Rattle.product.specs.Said.{word_of};
ghost use Rattle.product.specs.Outcome.{Written, Added};
ghost use Rattle.product.specs.Products.{words_of, version_of, number_of, size_of, letters_of, meets_of};

mod faults;
mod masks;
mod spelling;
mod weights;
mod words;

use decimal::Output;
pub use faults::ProductFault;
pub use masks::Product;
use spelling::put_literals;
use weights::weight;
pub use words::Word;

// Whether bit j of a mask of twelve bits is 1; bit 15 is 0, as all past the twelfth.
#[tactic(auto, using(crate::proofs::Bitwise::no_bit))]
fn has_bit(mask: u16, j: u8) -> bool
    requires { mask < 4096 }
    ensures { result ≡ bit mask j }
{
    (mask >> j.min(15)) % 2 == 1
}

impl Product {
    // The number in base 3: a wanted option counts twice, once by its name and once by its sign.
    #[tactic(auto, using(crate::proofs::Sealed::number_by_weights, crate::proofs::Sealed::number_few, crate::proofs::Sealed::same_number))]
    pub fn number(self) -> u32
        ensures value { result ≡ number_of (words_of self) }
        ensures one { (q : Product) → number_of (words_of q) ≡ result → q ≡ self }
        ensures few { result < 3 ^ 12 }
    {
        weight(self.named) + weight(self.sign)
    }

    // How many options are named.
    #[tactic(auto, using(crate::proofs::Sealed::size_by_ones, crate::proofs::Sealed::ones_few))]
    pub fn length(self) -> u32
        ensures value { result ≡ size_of (words_of self) }
        ensures count { result ≡ count_ones self.named }
        ensures few { result ≤ 12 }
    {
        self.named.count_ones()
    }

    // Two bytes for each named option, without the `!` of the wanted ones.
    pub fn letters_len(self) -> usize
        ensures value { result ≡ length (letters_of (words_of self)) }
        ensures few { result ≤ 24 }
    {
        (2 * self.length() - self.sign.count_ones()) as usize
    }

    // Writes the letters onto an output, or nothing where they do not fit.
    pub fn put_letters(self, output: &mut Output) -> Result<(), ProductFault>
        ensures { Added (letters_of (words_of self)) output.old output.new result }
    {
        if output.room() < self.letters_len() {
            return Err(ProductFault::ShortOutput);
        }
        put_literals(output, self);
        Ok(())
    }

    // Writes the letters to the start of `out`, or nothing where they do not fit.
    pub fn letters(self, out: &mut [u8]) -> Result<usize, ProductFault>
        ensures { Written (letters_of (words_of self)) out.old out.new result }
    {
        let mut output = Output::new(out);
        self.put_letters(&mut output)?;
        Ok(output.written())
    }

    // What the product says of the option at bit j; past the twelfth there is none.
    pub fn word(self, j: u8) -> Word
        ensures { word_of result ≡ word (bit self.named j) (bit self.sign j) }
    {
        if !has_bit(self.named, j) {
            return Word::Absent;
        }
        if has_bit(self.sign, j) {
            Word::Wanted
        } else {
            Word::Refused
        }
    }

    // Whether the version has at each named option the sign that the product asks for; bits above the twelve make no difference.
    #[tactic(auto, using(crate::proofs::Sealed::meets_by_masks))]
    pub fn meets(self, version: u16) -> bool
        ensures { result ≡ meets_of (words_of self) (version_of version) }
    {
        version & self.named == self.sign
    }
}
