ghost use Rattle.std.specs.Prelude.{◌≡◌, ◌+◌, ◌-◌, ◌*◌, ◌<◌, ◌≤◌, true, ◌↔◌};
ghost use Rattle.diagram.specs.Nodes.{Issued, meaning, Stands};
ghost use Rattle.table.specs.Room.{SameRoom};
ghost use Rattle.implicant.specs.Variables.{SignsOnly, primes_by_halves};
ghost use Rattle.walk.specs.Outcomes.{Walked, PrimesWalked};

use formula::Operator;
use table::{NodeTable, TableFault};
use walk::{Cache, Manager, Op, Task, branches};

// Whether h depends on signs alone; it stops at the first node that shows otherwise.
pub fn signs_only<T: NodeTable>(table: &T, h: u16) -> bool
    requires { Issued (T.nodes table.now) h }
    ensures { (result ≡ true) ↔ SignsOnly 0 (meaning (T.nodes table.now) h) }
{
    match table.get(h) {
        Ok(n) => n.level % 2 == 0 && signs_only(table, n.low) && signs_only(table, n.high),
        Err(_) => true,
    }
}

// The set of the primes, by the sets of those of the "and" of both halves, of the low half and of the high one.
fn unite<T: NodeTable, C: Cache>(
    manager: &mut Manager<T, C>,
    gone: u8,
    p: u16,
    p0: u16,
    p1: u16,
) -> Result<u16, TableFault>
    requires option { gone < 12 }
    requires p { Stands (T.nodes manager.old.table) (2 * gone + 3) p (meaning (T.nodes manager.old.table) p) }
    requires low { Stands (T.nodes manager.old.table) (2 * gone + 3) p0 (meaning (T.nodes manager.old.table) p0) }
    requires high { Stands (T.nodes manager.old.table) (2 * gone + 3) p1 (meaning (T.nodes manager.old.table) p1) }
    ensures room { SameRoom T.limit T.rest manager.old.table manager.new.table }
    ensures value { Walked (T.limit manager.old.table) (T.nodes manager.old.table) (2 * gone + 1) (primes_by_halves gone (meaning (T.nodes manager.old.table) p) (meaning (T.nodes manager.old.table) p0) (meaning (T.nodes manager.old.table) p1)) result (T.nodes manager.new.table) }
{
    let q0 = manager.apply(Op::AndNot, p0, p)?;
    let q1 = manager.apply(Op::AndNot, p1, p)?;
    let s = manager.make(2 * gone + 2, q0, q1)?;
    manager.make(2 * gone + 1, p, s)
}

// The set of the primes of f, which depends only on the signs of the options after the first `gone`.
// It enters nodes of working functions only: of f and its set, and the same of both halves and of their "and".
pub fn primes<T: NodeTable, C: Cache>(
    manager: &mut Manager<T, C>,
    f: u16,
    gone: u8,
) -> Result<u16, TableFault>
    requires f { Issued (T.nodes manager.old.table) f }
    requires option { gone ≤ 12 }
    requires signs { SignsOnly gone (meaning (T.nodes manager.old.table) f) }
    ensures room { SameRoom T.limit T.rest manager.old.table manager.new.table }
    ensures value { PrimesWalked (T.limit manager.old.table) (12 - gone) gone (meaning (T.nodes manager.old.table) f) (T.nodes manager.old.table) result (T.nodes manager.new.table) }
{
    if gone == 12 {
        return Ok(f);
    }
    if let Some(h) = manager.cache.ask(Task::Primes(f, gone)) {
        return Ok(h);
    }
    let (f0, f1) = branches(&manager.table, f, 2 * gone + 2);
    let both = manager.apply(Op::Infix(Operator::And), f0, f1)?;
    let p = primes(manager, both, gone + 1)?;
    let p0 = primes(manager, f0, gone + 1)?;
    let p1 = primes(manager, f1, gone + 1)?;
    let h = unite(manager, gone, p, p0, p1)?;
    manager.cache.tell(Task::Primes(f, gone), h);
    Ok(h)
}
