ghost use Rattle.std.specs.Prelude.{◌≡◌, ◌-◌, ◌^◌, ◌<◌, ◌≤◌, replicate};
ghost use Rattle.product.specs.Masks.{words};
ghost use Rattle.product.specs.Products.{words_of};
ghost use Rattle.listing.specs.declared.counts.Count.TheVariants.{Zero};
ghost use Rattle.listing.specs.Counts.{one_more, is_one, Marked, alone, alone_of};

use product::{Product, Word};

// How many products a version meets: from two on, how many makes no difference.
#[derive(Clone, Copy)]
pub(crate) enum Count {
    Zero,
    One,
    Many,
}

impl Count {
    // One more.
    fn next(self) -> Count
        ensures { result ≡ one_more self }
    {
        match self {
            Count::Zero => Count::One,
            Count::One | Count::Many => Count::Many,
        }
    }

    // Whether it is one, neither none nor many.
    fn is_one(self) -> bool
        ensures { result ≡ is_one self }
    {
        matches!(self, Count::One)
    }
}

// How many products each version meets.
#[derive(Drop)]
pub(crate) struct Counter {
    counts: [Count; 4096],
}

impl Counter {
    // Before any product is counted.
    pub(crate) fn new() -> Counter
        ensures { result.counts ≡ replicate 4096 Zero }
    {
        Counter {
            counts: [Count::Zero; 4096],
        }
    }

    // Counts a product, over its last n options, at each version that meets it and begins with the signs of `prefix`.
    fn mark(&mut self, product: Product, n: u8, prefix: u16)
        requires few { n ≤ 12 }
        requires prefix { prefix < 2 ^ (12 - n) }
        ensures { Marked n prefix (words n product.named product.sign) self.old.counts self.new.counts }
    {
        if n == 0 {
            let version = prefix as usize;
            self.counts[version] = self.counts[version].next();
            return;
        }
        let j = n - 1;
        match product.word(j) {
            Word::Refused => self.mark(product, j, 2 * prefix),
            Word::Wanted => self.mark(product, j, 2 * prefix + 1),
            Word::Absent => {
                self.mark(product, j, 2 * prefix);
                self.mark(product, j, 2 * prefix + 1);
            }
        }
    }

    // Whether some version that meets a product, over its last n options, and begins with the signs of `prefix`, has the count one.
    fn is_alone(&self, product: Product, n: u8, prefix: u16) -> bool
        requires few { n ≤ 12 }
        requires prefix { prefix < 2 ^ (12 - n) }
        ensures { result ≡ alone n self.now.counts prefix (words n product.named product.sign) }
    {
        if n == 0 {
            return self.counts[prefix as usize].is_one();
        }
        let j = n - 1;
        match product.word(j) {
            Word::Refused => self.is_alone(product, j, 2 * prefix),
            Word::Wanted => self.is_alone(product, j, 2 * prefix + 1),
            Word::Absent => {
                self.is_alone(product, j, 2 * prefix) || self.is_alone(product, j, 2 * prefix + 1)
            }
        }
    }

    // Counts a product at each version that meets it.
    #[tactic(auto, unfolding(product::specs::Products::words_of))]
    pub(crate) fn add(&mut self, product: Product)
        ensures { Marked 12 0 (words_of product) self.old.counts self.new.counts }
    {
        self.mark(product, 12, 0);
    }

    // Whether some version meets a product and no other that was counted.
    #[tactic(auto, unfolding(product::specs::Products::words_of, crate::specs::Counts::alone_of))]
    pub(crate) fn is_essential(&self, product: Product) -> bool
        ensures { result ≡ alone_of self.now.counts (words_of product) }
    {
        self.is_alone(product, 12, 0)
    }
}
