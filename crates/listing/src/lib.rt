// The list of a condition, written from the product set of its primes: inner code, whose functions have `requires`; only the inner crates and the engine above call them.
#![tactic(auto)]

mod counts;
mod faults;
mod receivers;
mod rows;
mod theorems;
mod totals;
mod writing;

pub use faults::ListFault;
pub use theorems::{lists_cover, one_list};
pub use writing::write_list;
