// What a draft takes, and cards read from texts.
ghost use Rattle.std.specs.Prelude.{◌≡◌, ℕ, ◌≤◌, List, length, drop};
ghost use Rattle.formula.specs.Grammar.{Tree};
ghost use Rattle.card_text.specs.Card.{Tail};
ghost use Rattle.card_walk.specs.Sums.{TreesOf, some_of};
ghost use Rattle.table.specs.Room.{SameRoom};
ghost use Rattle.engine.specs.Works.{sums};
ghost use Rattle.engine.specs.Calls.{Made};
ghost use Rattle.engine.specs.Cards.{SumOut, AddOut, ReadOut};

use crate::card_faults::CardFault;
use crate::cards::{Closed, Draft};
use crate::faults::GraphFault;
use crate::graph::Graph;
use card_text::read_card;
use card_walk::run_uses;
use formula::Operator;
use table::NodeTable;

impl<T: NodeTable> Graph<T> {
    // The or of two conditions.
    fn sum(&mut self, f: u16, g: u16) -> Result<u16, GraphFault>
        ensures out { SumOut (T.limit self.old) f g (T.nodes self.old) result (T.nodes self.new) }
        ensures room { SameRoom T.limit T.rest self.old self.new }
    {
        self.issued(f)?;
        self.issued(g)?;
        self.condition(f)?;
        self.condition(g)?;
        self.combine(Operator::Or, f, g)
    }

    // The sum of a card's formulas, whose USE records begin at `uses`, made as one call.
    pub(crate) fn sum_uses(&mut self, text: &[u8], uses: usize) -> Result<u16, GraphFault>
        requires short { length text.now ≤ 4096 }
        requires card { (fs : List (List ℕ)) × (ts : List Tree) × Tail fs (drop uses text.now) × TreesOf fs ts }
        ensures out { (fs : List (List ℕ)) (ts : List Tree) → Tail fs (drop uses text.now) → TreesOf fs ts → Made (T.limit self.old) (sums ts) (some_of ts) (T.nodes self.old) result (T.nodes self.new) }
        ensures room { SameRoom T.limit T.rest self.old self.new }
    {
        let held = self.len();
        let walked = run_uses(&mut self.manager, text, uses);
        self.end(held, walked)
    }
}

// Adds a condition to a draft; refused, the draft is as it was.
pub fn add<T: NodeTable>(graph: &mut Graph<T>, draft: &mut Draft, f: u16) -> Result<(), CardFault>
    ensures out { AddOut (T.limit graph.old) f (T.nodes graph.old) draft.old.condition result (T.nodes graph.new) draft.new.condition }
    ensures room { SameRoom T.limit T.rest graph.old graph.new }
{
    draft.condition = graph.sum(draft.condition, f)?;
    Ok(())
}

// The closed card of a text: its condition is the sum of its formulas, made as one call.
pub fn read<T: NodeTable>(graph: &mut Graph<T>, text: &[u8]) -> Result<Closed, CardFault>
    ensures out { ReadOut (T.limit graph.old) text.now (T.nodes graph.old) result (T.nodes graph.new) }
    ensures room { SameRoom T.limit T.rest graph.old graph.new }
{
    let outline = read_card(text)?;
    let condition = graph.sum_uses(text, outline.uses)?;
    Ok(Closed { condition })
}
