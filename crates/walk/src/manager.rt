// A node table with its computed table: the pair that every walk which enters nodes goes over.
ghost use Rattle.std.specs.Prelude.{◌≡◌, ◌+◌, ◌≤◌, []};
ghost use Rattle.diagram.specs.Functions.{choice};
ghost use Rattle.diagram.specs.Nodes.{meaning, Stands};
ghost use Rattle.table.specs.Model.{oldest};
ghost use Rattle.table.specs.Room.{SameRoom};
ghost use Rattle.walk.specs.Entries.{Right};
ghost use Rattle.walk.specs.Outcomes.{Walked};

use crate::cache::Cache;
use diagram::Node;
use table::{NodeTable, TableFault};

// All results that the cache remembers are right for the nodes that the table holds.
#[derive(Drop)]
pub struct Manager<T: NodeTable, C: Cache> {
    pub table: T,
    pub cache: C,
    ghost right: { ∥ Right (T.nodes table) (C.holds cache) ∥₁ },
}

impl<T: NodeTable, C: Cache> Manager<T, C> {
    // Takes all nodes out of a table, and lets a cache forget all results.
    pub fn new(mut table: T, mut cache: C) -> Self
        ensures nodes { T.nodes result.table ≡ [] }
        ensures room { SameRoom T.limit T.rest table result.table }
    {
        table.truncate(0);
        cache.clear();
        Manager { table, cache }
    }

    // Takes the newest nodes out until `count` are left, and with them all results, which may speak of them. Where none goes, all is still right.
    pub fn cut(&mut self, count: u16)
        ensures nodes { T.nodes self.new.table ≡ oldest count (T.nodes self.old.table) }
        ensures room { SameRoom T.limit T.rest self.old.table self.new.table }
    {
        if count < self.table.len() {
            self.table.truncate(count);
            self.cache.clear();
        }
    }

    // The handle of a node, or of `low` where both sides are one.
    pub fn make(&mut self, l: u8, low: u16, high: u16) -> Result<u16, TableFault>
        requires low { Stands (T.nodes self.old.table) (l + 1) low (meaning (T.nodes self.old.table) low) }
        requires high { Stands (T.nodes self.old.table) (l + 1) high (meaning (T.nodes self.old.table) high) }
        requires first { 1 ≤ l }
        ensures room { SameRoom T.limit T.rest self.old.table self.new.table }
        ensures value { Walked (T.limit self.old.table) (T.nodes self.old.table) l (choice l (meaning (T.nodes self.old.table) low) (meaning (T.nodes self.old.table) high)) result (T.nodes self.new.table) }
    {
        if low == high {
            return Ok(low);
        }
        self.table.insert(Node {
            level: l,
            low,
            high,
        })
    }
}
