ghost use Rattle.std.specs.Prelude.{◌≡◌, [], length, MatchResult};
ghost use Rattle.diagram.specs.Nodes.{Issued};
ghost use Rattle.table.specs.declared.faults.Reason.TheVariants.{NotIssued};
ghost use Rattle.table.specs.Faults.{fault};
ghost use Rattle.table.specs.Model.{Got};
ghost use Rattle.table.specs.Room.{SameRoom};
ghost use Rattle.engine.specs.Ends.{Ended};
ghost use Rattle.engine.specs.declared.faults.GraphFault.TheVariants.{NotCondition};
ghost use Rattle.engine.specs.Calls.{IsCondition};

use crate::faults::GraphFault;
use diagram::Node;
use prime_walk::signs_only;
use std::marker::Model;
use table::{NodeTable, Reason, TableFault};
use walk::{DirectCache, Manager};

// A node table and the results that calls remember. Callers see the table: what is remembered is free.
#[derive(Drop)]
pub struct Graph<T: NodeTable> {
    pub(crate) manager: Manager<T, DirectCache>,
}

impl<T: NodeTable> Model for Graph<T> {
    ghost Value = { T };

    ghost view = { λ graph. graph.manager.table };
}

impl<T: NodeTable> Graph<T> {
    // A graph over a table, whose nodes are taken out.
    pub fn new(table: T) -> Self
        ensures nodes { T.nodes result ≡ [] }
        ensures room { SameRoom T.limit T.rest table result }
    {
        Graph {
            manager: Manager::new(table, DirectCache::new()),
        }
    }

    // The table, with all its nodes.
    pub fn into_table(self) -> T
        ensures { result ≡ self }
    {
        let Graph { manager } = self;
        let Manager { table, cache: _ } = manager;
        table
    }

    pub fn size(&self) -> u16
        ensures { result ≡ T.limit self.now }
    {
        self.manager.table.size()
    }

    pub fn len(&self) -> u16
        ensures { result ≡ length (T.nodes self.now) }
    {
        self.manager.table.len()
    }

    pub fn get(&self, handle: u16) -> Result<Node, TableFault>
        ensures { Got (T.limit self.now) (T.nodes self.now) handle result }
    {
        self.manager.table.get(handle)
    }

    // Whether a handle is issued; refused with 9 where it is not.
    pub(crate) fn issued(&self, handle: u16) -> Result<(), TableFault>
        ensures { MatchResult result (λ _. Issued (T.nodes self.now) handle) (λ e. (Issued (T.nodes self.now) handle → ⊥) × (e ≡ fault NotIssued (T.limit self.now))) }
    {
        if handle < 2 || handle - 2 < self.len() {
            return Ok(());
        }
        let size = self.size();
        Err(TableFault {
            reason: Reason::NotIssued,
            size,
        })
    }

    // Whether an issued handle means a condition; refused with 10 where it does not.
    pub(crate) fn condition(&self, f: u16) -> Result<(), GraphFault>
        requires { Issued (T.nodes self.now) f }
        ensures { MatchResult result (λ _. IsCondition (T.nodes self.now) f) (λ e. (IsCondition (T.nodes self.now) f → ⊥) × (e ≡ NotCondition)) }
    {
        if signs_only(&self.manager.table, f) {
            Ok(())
        } else {
            Err(GraphFault::NotCondition)
        }
    }

    // Ends a call of which `held` nodes were there before: where it was refused, those that it entered are taken back.
    // What the call does is no closure that is handed in: a clause sees a graph as its table, and could not say what a walk did to the manager.
    pub(crate) fn end<A, E, F: From<E>>(&mut self, held: u16, done: Result<A, E>) -> Result<A, F>
        ensures ended { Ended F.from_gives held done (T.nodes self.old) result (T.nodes self.new) }
        ensures room { SameRoom T.limit T.rest self.old self.new }
    {
        match done {
            Ok(answer) => Ok(answer),
            Err(e) => {
                self.manager.cut(held);
                Err(F::from(e))
            }
        }
    }
}
