ghost use Rattle.std.specs.Prelude.{ℕ, ◌<◌, List, Decides};
ghost use Rattle.diagram.specs.declared.Node.{Node};
ghost use Rattle.diagram.specs.Nodes.{Fit, Issued, level_of};
ghost use Rattle.table.specs.Model.{Got};

use crate::faults::TableFault;
use diagram::Node;

// Whether a handle may be a child of a node of the level: issued, and deeper.
// `found` is what getting the handle answered.
fn child_fits(level: u8, handle: u16, found: Result<Node, TableFault>) -> bool
    ensures { (N : ℕ) (ns : List Node) → Got N ns handle found → Decides result (Issued ns handle × (level < level_of ns handle)) }
{
    if handle < 2 {
        return level < 25;
    }
    match found {
        Ok(n) => level < n.level,
        Err(_) => false,
    }
}

// Whether a node may be entered; `low` and `high` are what getting its children answered.
pub fn fits(node: Node, low: Result<Node, TableFault>, high: Result<Node, TableFault>) -> bool
    ensures { (N : ℕ) (ns : List Node) → Got N ns node.low low → Got N ns node.high high → Decides result (Fit ns node) }
{
    if node.level < 1 || node.level > 24 || node.low == node.high {
        return false;
    }
    let low_fits = child_fits(node.level, node.low, low);
    let high_fits = child_fits(node.level, node.high, high);
    low_fits && high_fits
}
