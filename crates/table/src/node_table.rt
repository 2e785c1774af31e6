ghost use Rattle.std.specs.Prelude.{◌≡◌, ℕ, List, length};
ghost use Rattle.diagram.specs.declared.Node.{Node};
ghost use Rattle.table.specs.Model.{Sound, Got, Inserted, oldest};
ghost use Rattle.table.specs.Room.{SameRoom};

use crate::faults::TableFault;
use diagram::Node;

// A table of decision nodes, each held once, in order of entry.
// It is known by its nodes, newest first, by its size, which its constructor fixes, and by the memory that was lent to it:
// all of that, what of it is never touched, and how size, nodes and that rest determine what the memory holds.
pub trait NodeTable {
    // A place of the lent memory.
    type Cell;

    // The nodes, newest first.
    ghost nodes: { Self → List Node };

    // The size.
    ghost limit: { Self → ℕ };

    // The part of the memory that is never touched.
    ghost rest: { Self → List Self.Cell };

    // All that was lent, as it is now.
    ghost memory: { Self → List Self.Cell };

    // What the memory holds at a size, with some nodes and a rest.
    ghost content: { ℕ → List Node → List Self.Cell → List Self.Cell };

    fn size(&self) -> u16
        ensures value { result ≡ limit self.now };

    fn len(&self) -> u16
        ensures value { result ≡ length (nodes self.now) };

    fn get(&self, handle: u16) -> Result<Node, TableFault>
        ensures { Got (limit self.now) (nodes self.now) handle result };

    fn insert(&mut self, node: Node) -> Result<u16, TableFault>
        ensures inserted { Inserted (limit self.old) (nodes self.old) node result (nodes self.new) }
        ensures room { SameRoom limit rest self.old self.new };

    fn truncate(&mut self, count: u16)
        ensures nodes { nodes self.new ≡ oldest count (nodes self.old) }
        ensures room { SameRoom limit rest self.old self.new };

    // A table's nodes are well formed, and within its size.
    ghost sound: { (t : Self) → Sound (limit t) (nodes t) };

    // What the lent memory holds.
    ghost lent: { (t : Self) → memory t ≡ content (limit t) (nodes t) (rest t) };
}
