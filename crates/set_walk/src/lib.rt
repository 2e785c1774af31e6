// Walks over product sets that enter no node: inner code, whose functions have `requires`; only the inner crates and the engine above call them.
#![tactic(auto)]

mod handing;
mod prefix;
mod receiver;
mod sets;

pub use handing::hand_over;
pub use receiver::Receiver;
pub use sets::{answer_at, is_product_set};
