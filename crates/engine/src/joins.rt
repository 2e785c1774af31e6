// The operators of two operands. Each is a call of the interface by its own name; their one text is `combine`.
ghost use Rattle.std.specs.Prelude.{◌≡◌};
ghost use Rattle.formula.specs.declared.steps.Operator.TheVariants.{And, Xor, Or, Implies, Iff};
ghost use Rattle.table.specs.Room.{SameRoom};
ghost use Rattle.engine.specs.Calls.{CombineOut};

use crate::faults::GraphFault;
use crate::graph::Graph;
use formula::Operator;
use table::NodeTable;
use walk::Op;

impl<T: NodeTable> Graph<T> {
    // The handle of f and g joined by an operator; every operator has its own walk.
    pub(crate) fn combine(&mut self, op: Operator, f: u16, g: u16) -> Result<u16, GraphFault>
        ensures out { CombineOut (T.limit self.old) op f g (T.nodes self.old) result (T.nodes self.new) }
        ensures room { SameRoom T.limit T.rest self.old self.new }
    {
        let held = self.len();
        self.issued(f)?;
        self.issued(g)?;
        let walked = self.manager.apply(Op::Infix(op), f, g);
        self.end(held, walked)
    }

    // Yes where both are.
    pub fn and(&mut self, f: u16, g: u16) -> Result<u16, GraphFault>
        ensures out { CombineOut (T.limit self.old) And f g (T.nodes self.old) result (T.nodes self.new) }
        ensures room { SameRoom T.limit T.rest self.old self.new }
    {
        self.combine(Operator::And, f, g)
    }

    // Yes where one of them is.
    pub fn or(&mut self, f: u16, g: u16) -> Result<u16, GraphFault>
        ensures out { CombineOut (T.limit self.old) Or f g (T.nodes self.old) result (T.nodes self.new) }
        ensures room { SameRoom T.limit T.rest self.old self.new }
    {
        self.combine(Operator::Or, f, g)
    }

    // Yes where they differ.
    pub fn xor(&mut self, f: u16, g: u16) -> Result<u16, GraphFault>
        ensures out { CombineOut (T.limit self.old) Xor f g (T.nodes self.old) result (T.nodes self.new) }
        ensures room { SameRoom T.limit T.rest self.old self.new }
    {
        self.combine(Operator::Xor, f, g)
    }

    // Yes where f is no or g is yes.
    pub fn implies(&mut self, f: u16, g: u16) -> Result<u16, GraphFault>
        ensures out { CombineOut (T.limit self.old) Implies f g (T.nodes self.old) result (T.nodes self.new) }
        ensures room { SameRoom T.limit T.rest self.old self.new }
    {
        self.combine(Operator::Implies, f, g)
    }

    // Yes where they agree.
    pub fn iff(&mut self, f: u16, g: u16) -> Result<u16, GraphFault>
        ensures out { CombineOut (T.limit self.old) Iff f g (T.nodes self.old) result (T.nodes self.new) }
        ensures room { SameRoom T.limit T.rest self.old self.new }
    {
        self.combine(Operator::Iff, f, g)
    }
}
