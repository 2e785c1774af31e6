// Graphs of conditions: reduced decision diagrams over any node table, with exact node accounting.
#![tactic(auto)]

mod calls;
mod card_faults;
mod cards;
mod cofactors;
mod drafts;
mod faults;
mod formulas;
mod graph;
mod joins;
mod lists;
mod prime_sets;
mod product_sets;
mod shows;
mod theorems;

pub use card_faults::CardFault;
pub use cards::{Closed, Draft, close};
pub use drafts::{add, read};
pub use faults::GraphFault;
pub use graph::Graph;
pub use lists::list;
pub use shows::show;
pub use theorems::calls_agree;
