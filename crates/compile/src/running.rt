ghost use Rattle.std.specs.Prelude.{◌≡◌};
ghost use Rattle.table.specs.Room.{SameRoom};
ghost use Rattle.formula.specs.Answer.{steps_of};
ghost use Rattle.formula.specs.Grammar.{Tree, postfix};
ghost use Rattle.compile.specs.Outcomes.{Compiled};

use crate::making::{Stack, make_step};
use formula::Formula;
use table::{NodeTable, TableFault};
use walk::{Cache, Manager};

// The handle of a formula; each part of it is made on the way, by one walk for each step.
pub fn run_formula<T: NodeTable, C: Cache>(
    manager: &mut Manager<T, C>,
    f: &Formula,
) -> Result<u16, TableFault>
    ensures room { SameRoom T.limit T.rest manager.old.table manager.new.table }
    ensures value { (t : Tree) → steps_of f.now ≡ postfix t → Compiled (T.limit manager.old.table) (T.nodes manager.old.table) t result (T.nodes manager.new.table) }
{
    let mut stack = Stack::new();
    for step in f.steps() {
        let h = make_step(manager, &mut stack, *step)?;
        stack.push(h);
    }
    Ok(stack.pop().unwrap())
}
