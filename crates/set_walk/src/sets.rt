ghost use Rattle.std.specs.Prelude.{◌≡◌, ◌≤◌, true, ◌↔◌, if◌then◌else◌};
ghost use Rattle.product.specs.Products.{words_of};
ghost use Rattle.diagram.specs.Nodes.{Issued, meaning};
ghost use Rattle.implicant.specs.Variables.{ProductSet, products_of, mask_setting};

use diagram::Node;
use product::{Product, Word};
use table::NodeTable;
use walk::branches;

// Whether h means a product set; it stops at the first node that shows otherwise.
pub fn is_product_set<T: NodeTable>(table: &T, h: u16) -> bool
    requires { Issued (T.nodes table.now) h }
    ensures { (result ≡ true) ↔ ProductSet (meaning (T.nodes table.now) h) }
{
    match table.get(h) {
        Ok(n) if n.level % 2 == 0 => false,
        Ok(n) => {
            let (no, yes) = branches(table, n.high, n.level + 1);
            is_product_set(table, n.low)
                && is_product_set(table, no)
                && (no == yes || is_product_set(table, yes))
        }
        Err(_) => true,
    }
}

// The value that a product gives to the variable of a level: an odd one asks whether an option is named, an even one whether it is wanted.
fn value_at(product: Product, level: u8) -> bool
    requires { level ≤ 24 }
    ensures { result ≡ mask_setting product.named product.sign level }
{
    match product.word(12 - (level + 1) / 2) {
        Word::Absent => false,
        Word::Refused => level % 2 == 1,
        Word::Wanted => true,
    }
}

// The child of a node that a product leads to.
fn child(n: Node, product: Product) -> u16
    requires { n.level ≤ 24 }
    ensures { result ≡ (if mask_setting product.named product.sign n.level then n.high else n.low) }
{
    if value_at(product, n.level) {
        n.high
    } else {
        n.low
    }
}

// What a handle answers at a product: one way down.
pub fn answer_at<T: NodeTable>(table: &T, set: u16, product: Product) -> bool
    requires { Issued (T.nodes table.now) set }
    ensures { result ≡ products_of (meaning (T.nodes table.now) set) (words_of product) }
{
    match table.get(set) {
        Ok(n) => answer_at(table, child(n, product), product),
        Err(_) => set == 1,
    }
}
