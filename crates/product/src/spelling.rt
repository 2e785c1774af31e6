ghost use Rattle.std.specs.Prelude.{◌≡◌, ◌-◌, ◌<◌, length};
ghost use Rattle.decimal.specs.Outputs.{HasRoom, Puts};
ghost use Rattle.product.specs.Masks.{literal};
ghost use Rattle.product.specs.Products.{words_of, letters_of};

use crate::masks::Product;
use crate::words::Word;
use decimal::Output;

// The letter of the option at bit j.
fn letter(j: u8) -> u8
    requires { j < 12 }
    ensures { result ≡ 108 - j }
{
    b'l' - j
}

// Writes the literal of the option at bit j.
#[tactic(auto, unfolding(crate::specs::Masks::literal))]
fn put_literal(output: &mut Output, product: Product, j: u8)
    requires option { j < 12 }
    requires room { HasRoom output.old (length (literal product.named product.sign j)) }
    ensures { Puts (literal product.named product.sign j) output.old output.new }
{
    match product.word(j) {
        Word::Absent => {}
        Word::Refused => {
            output.byte(b'!');
            output.byte(letter(j));
        }
        Word::Wanted => output.byte(letter(j)),
    }
}

// Writes the literals of a product.
pub(crate) fn put_literals(output: &mut Output, product: Product)
    requires { HasRoom output.old (length (letters_of (words_of product))) }
    ensures { Puts (letters_of (words_of product)) output.old output.new }
{
    for j in (0..12).rev() {
        put_literal(output, product, j);
    }
}
