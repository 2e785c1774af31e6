// The lists of closed cards.
ghost use Rattle.std.specs.Prelude.{◌≡◌};
ghost use Rattle.table.specs.Room.{SameRoom};
ghost use Rattle.engine.specs.Lists.{ListOut};

use crate::card_faults::CardFault;
use crate::cards::Closed;
use crate::graph::Graph;
use listing::write_list;
use table::NodeTable;

// Writes the list of a card to the start of `out`; refused, the nodes and the output are as they were.
pub fn list<T: NodeTable>(
    graph: &mut Graph<T>,
    card: &Closed,
    out: &mut [u8],
) -> Result<usize, CardFault>
    ensures out { ListOut (T.limit graph.old) card.now.condition (T.nodes graph.old) out.old result (T.nodes graph.new) out.new }
    ensures room { SameRoom T.limit T.rest graph.old graph.new }
{
    let held = graph.len();
    let set = graph.primes(card.condition)?;
    let written = write_list(&graph.manager.table, set, out);
    graph.end(held, written)
}
