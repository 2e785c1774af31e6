// The sum of a card's conditions, made over handles, and what is shown of it: inner code, whose functions have `requires`; only the engine above calls them.
#![tactic(auto)]

mod shown;
mod sums;
mod uses;

pub use shown::write_card;
pub use uses::run_uses;
