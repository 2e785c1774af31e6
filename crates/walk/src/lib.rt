// Walks over a decision diagram: inner code, whose functions have `requires`; only the inner crates and the engine above call them.
#![tactic(auto)]

mod cache;
mod cofactors;
mod handles;
mod joins;
mod manager;
mod ops;

pub use cache::{Cache, DirectCache, Entry, Task};
pub use handles::{branches, level};
pub use manager::Manager;
pub use ops::{Op, shortcut};
