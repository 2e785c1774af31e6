ghost use Rattle.std.specs.Prelude.{List, [], ◌∷◌, ◌++◌};
ghost use Rattle.product.specs.Words.{Words};
ghost use Rattle.product.specs.Products.{words_of};

use product::Product;

// What products are handed to, one by one. It is a trait and no closure: a clause on a closure would be a chain of its steps,
// of which a caller would have to unfold what happened to what it captured. The relation `fed` says it at once.
pub trait Receiver {
    // fed start now ps: begun as `start`, it has taken the products ps, one after the other, and is `now`.
    ghost fed: { Self → Self → List (Words 12) → Type 0 };

    fn take(&mut self, product: Product)
        ensures { (start : Self) (ps : List (Words 12)) → fed start self.old ps → fed start self.new (ps ++ (words_of product ∷ [])) };

    // Before any product it is as it began.
    ghost begins: { (r : Self) → fed r r [] };
}
