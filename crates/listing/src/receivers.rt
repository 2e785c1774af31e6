ghost use Rattle.std.specs.Prelude.{◌≡◌, [], refl};
ghost use Rattle.listing.specs.Counts.{Counted, alone_of};
ghost use Rattle.listing.specs.Received.{Sized, Begun, begun_none};

use crate::counts::Counter;
use crate::rows::{put_row, row_len};
use crate::totals::Totals;
use decimal::Output;
use product::Product;
use set_walk::Receiver;

// Counts each product at the versions that meet it.
impl Receiver for Counter {
    ghost fed = { λ start now ps. Counted [] start.counts → Counted ps now.counts };

    ghost begins = { λ r h. h };

    fn take(&mut self, product: Product) {
        self.add(product);
    }
}

// Adds up the rows of products.
#[derive(Drop)]
pub(crate) struct Sizer<'a> {
    pub(crate) counter: &'a Counter,
    pub(crate) totals: Totals,
}

impl Receiver for Sizer<'_> {
    ghost fed = { λ start now ps. (now.counter ≡ start.counter) × (Sized (alone_of start.counter.now.counts) [] start.totals → Sized (alone_of start.counter.now.counts) ps now.totals) };

    ghost begins = { λ r. (refl, λ h. h) };

    fn take(&mut self, product: Product) {
        let marked = self.counter.is_essential(product);
        self.totals.add(row_len(product), marked);
    }
}

// Writes the rows of products one after another, as far as they fit.
#[derive(Drop)]
pub(crate) struct Writer<'a, 'o> {
    pub(crate) counter: &'a Counter,
    pub(crate) output: &'a mut Output<'o>,
}

impl Receiver for Writer<'_, '_> {
    ghost fed = { λ start now ps. (now.counter ≡ start.counter) × (now.output.ghost_name ≡ start.output.ghost_name) × Begun (alone_of start.counter.now.counts) ps start.output.now now.output.now };

    ghost begins = { λ r. (refl, refl, begun_none (alone_of r.counter.now.counts) r.output.now) };

    fn take(&mut self, product: Product) {
        if self.output.room() < row_len(product) {
            return;
        }
        let marked = self.counter.is_essential(product);
        put_row(self.output, product, marked);
    }
}
