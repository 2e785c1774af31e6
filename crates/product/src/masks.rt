ghost use Rattle.std.specs.Prelude.{◌≡◌, ◌<◌, MatchResult, bit_and};
ghost use Rattle.product.specs.declared.faults.ProductFault.TheVariants.{NotProduct};
ghost use Rattle.product.specs.Masks.{Masks};

use crate::faults::ProductFault;

// A product of literals over twelve options, the first at bit 11 and the last at bit 0.
#[derive(Clone, Copy)]
pub struct Product {
    pub(crate) named: u16,
    pub(crate) sign: u16,
    ghost low: { named < 4096 },
    ghost within: { bit_and sign named ≡ sign },
}

impl Product {
    // The product of two masks of twelve bits, if no option has a sign without its name.
    pub fn new(named: u16, sign: u16) -> Result<Product, ProductFault>
        ensures { MatchResult result (λ p. Masks named sign × (p.named ≡ named) × (p.sign ≡ sign)) (λ e. (Masks named sign → ⊥) × (e ≡ NotProduct)) }
    {
        if named >= 4096 || sign & named != sign {
            return Err(ProductFault::NotProduct);
        }
        Ok(Product { named, sign })
    }

    // The options that are wanted or refused.
    pub fn named(self) -> u16
        ensures { result ≡ self.named }
    {
        self.named
    }

    // The options that are wanted.
    pub fn sign(self) -> u16
        ensures { result ≡ self.sign }
    {
        self.sign
    }
}
