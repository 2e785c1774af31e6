ghost use Rattle.std.specs.Prelude.{◌≡◌, ◌≤◌, List, reverse};
ghost use Rattle.arrayvec.specs.ArrayVec.{array_vec_len};
ghost use Rattle.table.specs.Room.{SameRoom};
ghost use Rattle.formula.specs.declared.steps.Step.TheVariants.{Load};
ghost use Rattle.formula.specs.Grammar.{Tree, leaf};
ghost use Rattle.formula.specs.Running.{Enough};
ghost use Rattle.walk.specs.Outcomes.{Walked};
ghost use Rattle.compile.specs.Trees.{of_tree, Mean};
ghost use Rattle.compile.specs.Steps.{top, under, Bounded};

use arrayvec::ArrayVec;
use formula::{Leaf, Operator, Step};
use table::{NodeTable, TableFault};
use walk::{Cache, Manager, Op};

// The handles of the parts that are operands to come, the newest last: a formula has at most 4,096 steps, and each adds one at most.
pub(crate) type Stack = ArrayVec<u16, 4096>;

// The handle of a leaf: a constant's, which every table has, or that of an option's sign variable.
fn load<T: NodeTable, C: Cache>(manager: &mut Manager<T, C>, a: Leaf) -> Result<u16, TableFault>
    requires bounded { Bounded (Load a) }
    ensures room { SameRoom T.limit T.rest manager.old.table manager.new.table }
    ensures value { Walked (T.limit manager.old.table) (T.nodes manager.old.table) 0 (of_tree (leaf a)) result (T.nodes manager.new.table) }
{
    match a {
        Leaf::Constant(b) => Ok(u16::from(b)),
        Leaf::Option(k) => manager.make(2 * k, 0, 1),
    }
}

// Takes the operands of a step off the stack, and makes the handle of what the step puts in their place.
#[tactic(auto, using(crate::proofs::Stacks::negated_walked, crate::proofs::Stacks::applied_walked))]
pub(crate) fn make_step<T: NodeTable, C: Cache>(
    manager: &mut Manager<T, C>,
    stack: &mut Stack,
    step: Step,
) -> Result<u16, TableFault>
    requires enough { Enough step (array_vec_len stack.old) }
    requires bounded { Bounded step }
    requires means { (us : List Tree) × Mean (T.nodes manager.old.table) (reverse stack.old.items) us }
    ensures room { SameRoom T.limit T.rest manager.old.table manager.new.table }
    ensures value { (us : List Tree) → Mean (T.nodes manager.old.table) (reverse stack.old.items) us → Walked (T.limit manager.old.table) (T.nodes manager.old.table) 0 (of_tree (top step us)) result (T.nodes manager.new.table) }
    ensures below { (us : List Tree) → Mean (T.nodes manager.old.table) (reverse stack.old.items) us → Mean (T.nodes manager.old.table) (reverse stack.new.items) (under step us) }
    ensures shrinks { array_vec_len stack.new ≤ array_vec_len stack.old }
{
    match step {
        Step::Load(a) => load(manager, a),
        Step::Negate => {
            let x = stack.pop().unwrap();
            manager.apply(Op::Infix(Operator::Xor), x, 1)
        }
        Step::Apply(operator) => {
            let y = stack.pop().unwrap();
            let x = stack.pop().unwrap();
            manager.apply(Op::Infix(operator), x, y)
        }
    }
}
