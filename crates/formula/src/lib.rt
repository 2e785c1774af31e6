// Formulas over the twelve options: the reader, which gives every fault its number and place, and the truth table.
#![tactic(auto)]

ghost use Rattle.formula.specs.Grammar.{OneTree, PostfixInjective};

mod faults;
mod reader;
mod steps;
mod stored;
mod symbols;
mod truth;

pub use faults::FormulaFault;
pub use steps::{Leaf, Operator, Step};
pub use stored::Formula;

// One text has at most one tree, and one tree's steps are no other tree's.
pub fn one_tree()
    ensures text { OneTree }
    ensures steps { PostfixInjective }
{}
