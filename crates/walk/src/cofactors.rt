ghost use Rattle.std.specs.Prelude.{◌≡◌, ◌≤◌};
ghost use Rattle.diagram.specs.Nodes.{Issued, meaning, level_of};
ghost use Rattle.table.specs.Room.{SameRoom};
ghost use Rattle.walk.specs.Ops.{cofactor};
ghost use Rattle.walk.specs.Outcomes.{Walked};

use crate::cache::{Cache, Task};
use crate::handles::{branches, level};
use crate::manager::Manager;
use table::{NodeTable, TableFault};

impl<T: NodeTable, C: Cache> Manager<T, C> {
    // The handle of f's cofactor: f with the variable of level l set to a value. It enters nodes of that function only.
    pub fn restrict(&mut self, f: u16, l: u8, value: bool) -> Result<u16, TableFault>
        requires f { Issued (T.nodes self.old.table) f }
        requires last { l ≤ 24 }
        ensures room { SameRoom T.limit T.rest self.old.table self.new.table }
        ensures value { Walked (T.limit self.old.table) (T.nodes self.old.table) (level_of (T.nodes self.old.table) f) (cofactor l value (meaning (T.nodes self.old.table) f)) result (T.nodes self.new.table) }
    {
        let own = level(&self.table, f);
        if own > l {
            return Ok(f);
        }
        let (f0, f1) = branches(&self.table, f, own);
        if own == l {
            return Ok(if value { f1 } else { f0 });
        }
        if let Some(h) = self.cache.ask(Task::Restrict(f, l, value)) {
            return Ok(h);
        }
        let low = self.restrict(f0, l, value)?;
        let high = self.restrict(f1, l, value)?;
        let h = self.make(own, low, high)?;
        self.cache.tell(Task::Restrict(f, l, value), h);
        Ok(h)
    }
}
