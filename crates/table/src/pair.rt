ghost use Rattle.std.specs.Prelude.{◌≡◌, OnErr};
ghost use Rattle.table.specs.Pairs.{Paired};
ghost use Rattle.table.specs.Room.{SameRoom};
ghost use Rattle.table.specs.declared.pair.PairFault.TheVariants.{Table};

use crate::faults::TableFault;
use crate::node_table::NodeTable;
use diagram::Node;

// Why a pair was refused: the table's fault, whole. One case: that `From` and `?` carry a fault is a form that the code is to have (docs/DECISIONS.md).
#[derive(Clone, Copy, PartialEq, Eq, Debug)]
pub enum PairFault {
    Table(TableFault),
}

impl From<TableFault> for PairFault {
    ghost from_gives = { λ x y. y ≡ Table x };

    fn from(fault: TableFault) -> PairFault {
        PairFault::Table(fault)
    }
}

// Inserts `a` and then `b`, or neither; the handle is that of `b`.
pub fn insert_pair<T: NodeTable>(table: &mut T, a: Node, b: Node) -> Result<u16, PairFault>
    ensures paired { Paired (T.limit table.old) (T.nodes table.old) a b result (T.nodes table.new) }
    ensures room { SameRoom T.limit T.rest table.old table.new }
    ensures refused { OnErr result (T.memory table.new ≡ T.memory table.old) }
{
    let held = table.len();
    table.insert(a)?;
    let second = table.insert(b);
    if second.is_err() {
        table.truncate(held);
    }
    Ok(second?)
}
