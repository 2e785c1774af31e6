ghost use Rattle.std.specs.Prelude.{◌≡◌};
ghost use Rattle.walk.specs.Ops.{answer};
ghost use Rattle.walk.specs.Shortcuts.{Simple, Short};

use formula::Operator;

// An operator that joins two functions, answer by answer: one of the notation's, or "and not".
#[derive(Clone, Copy, PartialEq, Eq, Hash)]
pub enum Op {
    Infix(Operator),
    AndNot,
}

impl Op {
    // The operator's answer at two answers.
    fn apply(self, a: bool, b: bool) -> bool
        ensures { result ≡ answer self a b }
    {
        match self {
            Op::Infix(operator) => operator.apply(a, b),
            Op::AndNot => a && !b,
        }
    }
}

// What answers `a` where h answers no, and `b` where h answers yes: a constant, or h itself.
// There is none where it is the complement of h, which may have no handle.
fn simple(a: bool, b: bool, h: u16) -> Option<u16>
    ensures { Simple a b h result }
{
    if a == b {
        return Some(a as u16);
    }
    b.then_some(h)
}

// An operator's answer where one operand is constant, or both are one: it needs no descent.
pub fn shortcut(op: Op, f: u16, g: u16) -> Option<u16>
    ensures { Short op f g result }
{
    if f == g {
        return simple(op.apply(false, false), op.apply(true, true), f);
    }
    if f < 2 {
        let a = f == 1;
        if let Some(h) = simple(op.apply(a, false), op.apply(a, true), g) {
            return Some(h);
        }
    }
    if g < 2 {
        let b = g == 1;
        return simple(op.apply(false, b), op.apply(true, b), f);
    }
    None
}
