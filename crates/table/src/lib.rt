// Node tables: the nodes of a decision diagram, each held once, in memory that the caller lends.
#![tactic(auto)]

mod decided;
mod faults;
mod fitting;
mod handles;
mod node_table;
mod pair;
mod plain;

pub use decided::outcomes_are_decided;
pub use diagram::Node;
pub use faults::{Reason, TableFault};
pub use fitting::fits;
pub use handles::{MOST, handle_at, place_of};
pub use node_table::NodeTable;
pub use pair::{PairFault, insert_pair};
pub use plain::PlainTable;
