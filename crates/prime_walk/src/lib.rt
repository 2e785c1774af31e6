// The walk for primes: inner code, whose functions have `requires`; only the engine above calls them.
#![tactic(auto)]

mod prime_sets;

pub use prime_sets::{primes, signs_only};
