ghost use Rattle.std.specs.Prelude.{◌≡◌, min};
ghost use Rattle.diagram.specs.Nodes.{Issued, meaning, level_of};
ghost use Rattle.table.specs.Room.{SameRoom};
ghost use Rattle.walk.specs.Ops.{joined};
ghost use Rattle.walk.specs.Outcomes.{Walked};

use crate::cache::{Cache, Task};
use crate::handles::{branches, level};
use crate::manager::Manager;
use crate::ops::{Op, shortcut};
use table::{NodeTable, TableFault};

// The level to split f and g by: the first of theirs.
fn split_level<T: NodeTable>(table: &T, f: u16, g: u16) -> u8
    requires f { Issued (T.nodes table.now) f }
    requires g { Issued (T.nodes table.now) g }
    ensures { result ≡ min (level_of (T.nodes table.now) f) (level_of (T.nodes table.now) g) }
{
    level(table, f).min(level(table, g))
}

impl<T: NodeTable, C: Cache> Manager<T, C> {
    // The handle of f and g joined by an operator. It enters nodes of that function only.
    pub fn apply(&mut self, op: Op, f: u16, g: u16) -> Result<u16, TableFault>
        requires f { Issued (T.nodes self.old.table) f }
        requires g { Issued (T.nodes self.old.table) g }
        ensures room { SameRoom T.limit T.rest self.old.table self.new.table }
        ensures value { Walked (T.limit self.old.table) (T.nodes self.old.table) (min (level_of (T.nodes self.old.table) f) (level_of (T.nodes self.old.table) g)) (joined op (meaning (T.nodes self.old.table) f) (meaning (T.nodes self.old.table) g)) result (T.nodes self.new.table) }
    {
        if let Some(h) = shortcut(op, f, g) {
            return Ok(h);
        }
        if let Some(h) = self.cache.ask(Task::Join(op, f, g)) {
            return Ok(h);
        }
        let l = split_level(&self.table, f, g);
        let (f0, f1) = branches(&self.table, f, l);
        let (g0, g1) = branches(&self.table, g, l);
        let low = self.apply(op, f0, g0)?;
        let high = self.apply(op, f1, g1)?;
        let h = self.make(l, low, high)?;
        self.cache.tell(Task::Join(op, f, g), h);
        Ok(h)
    }
}
