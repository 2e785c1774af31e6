// Reduced ordered decision diagrams: the node, and the theorems that every crate above relies on.
#![tactic(auto)]

ghost use Rattle.diagram.specs.Theorems.{Canonical, LevelsOnly, NodesReached, HeldCounted, GrowthKeeps, UnionCounted, CountDecides, UnionWithin, UnionExceeds};

// A decision node: the handle `low` where the variable of its level is no, and `high` where it is yes.
#[derive(Clone, Copy, Default, PartialEq, Eq, Debug)]
pub struct Node {
    pub level: u8,
    pub low: u16,
    pub high: u16,
}

// Two issued handles of a well-formed sequence are one number exactly where they mean one function.
pub fn handles_are_canonical()
    ensures { Canonical }
{}

// What an issued handle of a well-formed sequence means depends on the 24 variables alone.
pub fn handles_read_the_variables()
    ensures { LevelsOnly }
{}

// The nodes of an issued handle's function are what the handles from 2 up that it reaches mean.
pub fn nodes_are_reached()
    ensures { NodesReached }
{}

// A well-formed sequence of n nodes holds exactly n functions.
pub fn held_functions_are_counted()
    ensures { HeldCounted }
{}

// An issued handle means the same after more nodes were entered.
pub fn growth_keeps_meanings()
    ensures { GrowthKeeps }
{}

// Whether the functions held and the nodes of some functions are together more than a limit.
pub fn unions_are_counted()
    ensures counted { UnionCounted }
    ensures decides { CountDecides }
    ensures within { UnionWithin }
    ensures exceeds { UnionExceeds }
{}
