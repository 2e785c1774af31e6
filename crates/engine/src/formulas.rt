ghost use Rattle.std.specs.Prelude.{◌≡◌};
ghost use Rattle.table.specs.Room.{SameRoom};
ghost use Rattle.engine.specs.Calls.{FormulaOut};

use crate::faults::GraphFault;
use crate::graph::Graph;
use compile::run_formula;
use formula::Formula;
use table::NodeTable;

impl<T: NodeTable> Graph<T> {
    // A formula's condition; every part of the formula is made too.
    pub fn formula(&mut self, text: &[u8]) -> Result<u16, GraphFault>
        ensures out { FormulaOut (T.limit self.old) text.now (T.nodes self.old) result (T.nodes self.new) }
        ensures room { SameRoom T.limit T.rest self.old self.new }
    {
        let held = self.len();
        let f = Formula::try_from(text)?;
        let walked = run_formula(&mut self.manager, &f);
        self.end(held, walked)
    }
}
