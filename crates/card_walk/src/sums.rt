ghost use Rattle.std.specs.Prelude.{◌≡◌, ◌≤◌, [], ◌∷◌};
ghost use Rattle.diagram.specs.Nodes.{Issued, meaning};
ghost use Rattle.table.specs.Room.{SameRoom};
ghost use Rattle.formula.specs.Grammar.{Tree, Derives};
ghost use Rattle.card_walk.specs.Sums.{IsFormula};
ghost use Rattle.card_walk.specs.Outcomes.{Summed};

use compile::run_formula;
use formula::{Formula, Operator};
use table::{NodeTable, TableFault};
use walk::{Cache, Manager, Op};

// The handle of a sum with one formula more; each part of the formula is made on the way.
pub(crate) fn run_use<T: NodeTable, C: Cache>(
    manager: &mut Manager<T, C>,
    text: &[u8],
    sum: u16,
) -> Result<u16, TableFault>
    requires formula { IsFormula text.now }
    requires sum { Issued (T.nodes manager.old.table) sum }
    ensures room { SameRoom T.limit T.rest manager.old.table manager.new.table }
    ensures value { (t : Tree) → Derives 32 1 text.now t → Summed (T.limit manager.old.table) (meaning (T.nodes manager.old.table) sum) (T.nodes manager.old.table) (t ∷ []) result (T.nodes manager.new.table) }
{
    let f = Formula::try_from(text).unwrap();
    let h = run_formula(manager, &f)?;
    manager.apply(Op::Infix(Operator::Or), sum, h)
}
