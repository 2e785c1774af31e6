// A card's text shown: its CARD record and its list.
ghost use Rattle.std.specs.Prelude.{◌≡◌};
ghost use Rattle.table.specs.Room.{SameRoom};
ghost use Rattle.engine.specs.Shows.{ShowOut};

use crate::card_faults::CardFault;
use crate::graph::Graph;
use card_text::read_card;
use card_walk::write_card;
use table::NodeTable;

// Writes the CARD record and the list of a card's text to the start of `out`; refused, the nodes and the output are as they were.
pub fn show<T: NodeTable>(
    graph: &mut Graph<T>,
    text: &[u8],
    out: &mut [u8],
) -> Result<usize, CardFault>
    ensures out { ShowOut (T.limit graph.old) text.now (T.nodes graph.old) out.old result (T.nodes graph.new) out.new }
    ensures room { SameRoom T.limit T.rest graph.old graph.new }
{
    let held = graph.len();
    let outline = read_card(text)?;
    let condition = graph.sum_uses(text, outline.uses)?;
    let made = graph.primes(condition);
    let set = graph.end::<_, _, CardFault>(held, made)?;
    let written = write_card(&graph.manager.table, set, outline.title.bytes, out);
    graph.end(held, written)
}
