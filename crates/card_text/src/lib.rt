// Card texts: the reader of a whole card, which gives every fault its number and place, and the records one by one.
#![tactic(auto)]

mod faults;
mod fields;
mod reader;
mod records;
mod state;
mod theorems;

pub use faults::TextFault;
pub use reader::{Outline, read_card};
pub use records::{Found, Part, Record, Use, Uses, record_at, use_at};
pub use theorems::{cards_are_written, rules_are_exact};
