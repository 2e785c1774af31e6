ghost use Rattle.std.specs.Prelude.{◌≡◌, ℕ, ◌≤◌, List, length, drop};
ghost use Rattle.table.specs.Room.{SameRoom};
ghost use Rattle.formula.specs.Grammar.{Tree};
ghost use Rattle.card_text.specs.Card.{Tail};
ghost use Rattle.card_walk.specs.Sums.{never, TreesOf};
ghost use Rattle.card_walk.specs.Outcomes.{Summed};

use crate::sums::run_use;
use card_text::Uses;
use table::{NodeTable, TableFault};
use walk::{Cache, Manager};

// The handle of the sum of a card's formulas, whose USE records begin at `uses`.
pub fn run_uses<T: NodeTable, C: Cache>(
    manager: &mut Manager<T, C>,
    text: &[u8],
    uses: usize,
) -> Result<u16, TableFault>
    requires short { length text.now ≤ 4096 }
    requires card { (fs : List (List ℕ)) × (ts : List Tree) × Tail fs (drop uses text.now) × TreesOf fs ts }
    ensures room { SameRoom T.limit T.rest manager.old.table manager.new.table }
    ensures value { (fs : List (List ℕ)) (ts : List Tree) → Tail fs (drop uses text.now) → TreesOf fs ts → Summed (T.limit manager.old.table) never (T.nodes manager.old.table) ts result (T.nodes manager.new.table) }
{
    let mut sum = 0;
    for formula in Uses::new(text, uses) {
        sum = run_use(manager, formula.bytes, sum)?;
    }
    Ok(sum)
}
