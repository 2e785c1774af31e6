ghost use Rattle.std.specs.Prelude.{◌≡◌, ℕ, ◌<◌, ◌≤◌, [], MatchOption, slice_index_or};
ghost use Rattle.diagram.specs.Nodes.{WellFormed};
ghost use Rattle.table.specs.Held.{sound_held, memory_held};
ghost use Rattle.table.specs.Plain.{Cleared, blank, plain_size, plain_nodes, plain_rest, plain_content};

use crate::faults::{Reason, TableFault};
use crate::fitting::fits;
use crate::handles::{MOST, handle_at, place_of};
use crate::node_table::NodeTable;
use diagram::Node;

// A node table over lent node records, searched one by one.
#[derive(Drop)]
pub struct PlainTable<'a> {
    run: &'a mut [Node],
    held: usize,
    ghost room: { held ≤ plain_size run.now },
    ghost formed: { ∥ WellFormed (plain_nodes held run.now) ∥₁ },
    ghost cleared: { ∥ Cleared held run.now ∥₁ },
}

impl<'a> PlainTable<'a> {
    // An empty table whose size is the run's length, at most 65,000.
    pub fn new(run: &'a mut [Node]) -> Self
        ensures nodes { plain_nodes result.held result.run.now ≡ [] }
        ensures size { plain_size result.run.now ≡ plain_size run.old }
        ensures rest { plain_rest result.run.now ≡ plain_rest run.old }
        ensures memory { result.run.now ≡ plain_content (plain_size run.old) [] (plain_rest run.old) }
    {
        let size = run.len().min(MOST);
        run[..size].fill(Node::default());
        PlainTable { run, held: 0 }
    }

    // Gives the run back, with what it holds.
    pub fn into_memory(self) -> &'a mut [Node]
        ensures kept { result.now ≡ self.entry.run.now }
        ensures content { result.now ≡ plain_content (plain_size self.entry.run.now) (plain_nodes self.entry.held self.entry.run.now) (plain_rest self.entry.run.now) }
    {
        let PlainTable { run, held: _ } = self;
        run
    }

    // The place of a node, the oldest first.
    fn find(&self, node: Node) -> Option<usize>
        ensures { MatchOption result ((k : ℕ) → k < self.now.held → slice_index_or self.now.run.now k blank ≡ node → ⊥) (λ k. (k < self.now.held) × (slice_index_or self.now.run.now k blank ≡ node)) }
    {
        self.run[..self.held].iter().position(|x| *x == node)
    }
}

impl<'a> NodeTable for PlainTable<'a> {
    type Cell = Node;

    ghost nodes = { λ t. plain_nodes t.held t.run.now };

    ghost limit = { λ t. plain_size t.run.now };

    ghost rest = { λ t. plain_rest t.run.now };

    ghost memory = { λ t. t.run.now };

    ghost content = { plain_content };

    ghost sound = { λ t. sound_held t.run.now t.held t.room t.formed };

    ghost lent = { λ t. memory_held t.run.now t.held t.room t.cleared };

    fn size(&self) -> u16 {
        self.run.len().min(MOST) as u16
    }

    fn len(&self) -> u16 {
        self.held as u16
    }

    fn get(&self, handle: u16) -> Result<Node, TableFault> {
        let place = place_of(handle, self.held, self.size())?;
        Ok(self.run[place])
    }

    // The other table reads alike here: one text for both would need a public trait with calls that ask something first.
    fn insert(&mut self, node: Node) -> Result<u16, TableFault> {
        let size = self.size();
        let low = self.get(node.low);
        let high = self.get(node.high);
        if !fits(node, low, high) {
            return Err(TableFault {
                reason: Reason::IllFormed,
                size,
            });
        }
        if let Some(place) = self.find(node) {
            return Ok(handle_at(place));
        }
        let at = self.held;
        if at >= size as usize {
            return Err(TableFault {
                reason: Reason::Full,
                size,
            });
        }
        self.run[at] = node;
        self.held = at + 1;
        Ok(handle_at(at))
    }

    fn truncate(&mut self, count: u16) {
        let n = count as usize;
        let at = self.held;
        if n < at {
            self.run[n..at].fill(Node::default());
            self.held = n;
        }
    }
}
