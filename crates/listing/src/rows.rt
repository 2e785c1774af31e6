ghost use Rattle.std.specs.Prelude.{◌≡◌, Bool, length};
ghost use Rattle.decimal.specs.Outputs.{HasRoom, Puts};
ghost use Rattle.product.specs.Products.{words_of};
ghost use Rattle.listing.specs.Listing.{field, row};

use decimal::{Output, digits};
use product::Product;

// A row's bytes beside its numbers and letters: P, Y or N, four commas and the line feed.
const ROW_FRAME: usize = 7;

// Writes a number and a comma.
#[tactic(auto, using(crate::proofs::Rowing::field_length))]
pub(crate) fn put_field(output: &mut Output, n: u32)
    requires { HasRoom output.old (length (field n)) }
    ensures { Puts (field n) output.old output.new }
{
    output.decimal(n);
    output.byte(b',');
}

// How many bytes the row of a product takes, marked or not.
pub(crate) fn row_len(product: Product) -> usize
    ensures { (marked : Bool) → result ≡ length (row (words_of product) marked) }
{
    digits(product.number()) + digits(product.length()) + product.letters_len() + ROW_FRAME
}

// Writes the row of a product.
pub(crate) fn put_row(output: &mut Output, product: Product, marked: bool)
    requires { HasRoom output.old (length (row (words_of product) marked)) }
    ensures { Puts (row (words_of product) marked) output.old output.new }
{
    output.bytes(b"P,");
    put_field(output, product.number());
    put_field(output, product.length());
    output.bytes(if marked { b"Y," } else { b"N," });
    product.put_letters(output).unwrap();
    output.byte(b'\n');
}
