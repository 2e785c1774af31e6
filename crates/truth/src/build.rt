// The graph call, on a new graph over lent bytes.
ghost use Rattle.std.specs.Prelude.{length};
ghost use Rattle.packed.specs.Layout.{size_of};
ghost use Rattle.truth.specs.Report.{Builds};

use engine::{Graph, GraphFault};
use packed::PackedTable;
use table::NodeTable;

// What the graph call answered, and how many nodes are held then.
#[derive(Drop)]
pub struct Built {
    pub answer: Result<u16, GraphFault>,
    pub nodes: u16,
}

// Builds a text's formula over a table, whose nodes are taken out.
fn run<T: NodeTable + Drop>(table: T, text: &[u8]) -> Built
    ensures { Builds (T.limit table) text.now result.answer result.nodes }
{
    let mut graph = Graph::new(table);
    let answer = graph.formula(text);
    let nodes = graph.len();
    Built { answer, nodes }
}

// Builds a text's formula over a packed table of the lent bytes.
pub fn build(bytes: &mut [u8], text: &[u8]) -> Built
    ensures { Builds (size_of (length bytes.old)) text.now result.answer result.nodes }
{
    run(PackedTable::new(bytes), text)
}
