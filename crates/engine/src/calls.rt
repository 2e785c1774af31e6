// Calls that make one node, or the complement.
ghost use Rattle.std.specs.Prelude.{◌≡◌, ◌*◌, MatchResult};
ghost use Rattle.table.specs.Room.{SameRoom};
ghost use Rattle.engine.specs.declared.faults.GraphFault.TheVariants.{NoOption};
ghost use Rattle.engine.specs.Calls.{IsOption, OptionOut, NotOut};

use crate::faults::GraphFault;
use crate::graph::Graph;
use formula::Operator;
use table::NodeTable;
use walk::Op;

// The level of an option's sign variable; refused with 5 where there is no such option.
pub(crate) fn sign_level(k: u8) -> Result<u8, GraphFault>
    ensures { MatchResult result (λ level. IsOption k × (level ≡ 2 * k)) (λ e. (IsOption k → ⊥) × (e ≡ NoOption)) }
{
    if k < 1 || k > 12 {
        return Err(GraphFault::NoOption);
    }
    Ok(2 * k)
}

impl<T: NodeTable> Graph<T> {
    // The sign of option k.
    pub fn option(&mut self, k: u8) -> Result<u16, GraphFault>
        ensures out { OptionOut (T.limit self.old) k (T.nodes self.old) result (T.nodes self.new) }
        ensures room { SameRoom T.limit T.rest self.old self.new }
    {
        let held = self.len();
        let level = sign_level(k)?;
        let walked = self.manager.make(level, 0, 1);
        self.end(held, walked)
    }

    // Yes where f is no.
    pub fn not(&mut self, f: u16) -> Result<u16, GraphFault>
        ensures out { NotOut (T.limit self.old) f (T.nodes self.old) result (T.nodes self.new) }
        ensures room { SameRoom T.limit T.rest self.old self.new }
    {
        let held = self.len();
        self.issued(f)?;
        let walked = self.manager.apply(Op::Infix(Operator::Xor), f, 1);
        self.end(held, walked)
    }
}
