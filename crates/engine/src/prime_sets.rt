ghost use Rattle.std.specs.Prelude.{◌≡◌};
ghost use Rattle.table.specs.Room.{SameRoom};
ghost use Rattle.engine.specs.Calls.{PrimesOut};

use crate::faults::GraphFault;
use crate::graph::Graph;
use prime_walk::primes;
use table::NodeTable;

impl<T: NodeTable> Graph<T> {
    // The set of the primes of a condition.
    pub fn primes(&mut self, f: u16) -> Result<u16, GraphFault>
        ensures out { PrimesOut (T.limit self.old) f (T.nodes self.old) result (T.nodes self.new) }
        ensures room { SameRoom T.limit T.rest self.old self.new }
    {
        let held = self.len();
        self.issued(f)?;
        self.condition(f)?;
        let walked = primes(&mut self.manager, f, 0);
        self.end(held, walked)
    }
}
