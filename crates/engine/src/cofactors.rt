ghost use Rattle.std.specs.Prelude.{◌≡◌};
ghost use Rattle.table.specs.Room.{SameRoom};
ghost use Rattle.engine.specs.Calls.{RestrictOut};

use crate::calls::sign_level;
use crate::faults::GraphFault;
use crate::graph::Graph;
use table::NodeTable;

impl<T: NodeTable> Graph<T> {
    // f with the sign of option k set to a value.
    pub fn restrict(&mut self, f: u16, k: u8, value: bool) -> Result<u16, GraphFault>
        ensures out { RestrictOut (T.limit self.old) f k value (T.nodes self.old) result (T.nodes self.new) }
        ensures room { SameRoom T.limit T.rest self.old self.new }
    {
        let held = self.len();
        let level = sign_level(k)?;
        self.issued(f)?;
        let walked = self.manager.restrict(f, level, value);
        self.end(held, walked)
    }
}
