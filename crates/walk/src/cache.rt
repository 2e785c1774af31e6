ghost use Rattle.std.specs.Prelude.{◌≡◌, ℕ, ◌<◌, ◌⊎◌, IfSome};
ghost use Rattle.walk.specs.declared.cache.Entry.{Entry};
ghost use Rattle.walk.specs.Places.{told, Keeps};

use crate::ops::Op;
use std::hash::{FoldHasher, Hash, Hasher};

// What a walk works out: a joining of two handles by an operator, a handle's cofactor at a level and a value,
// or the set of a handle's primes over the options after the first few.
#[derive(Clone, Copy, PartialEq, Eq, Hash)]
pub enum Task {
    Join(Op, u16, u16),
    Restrict(u16, u8, bool),
    Primes(u16, u8),
}

// A task with the handle that answers it.
#[derive(Clone, Copy)]
pub struct Entry {
    pub task: Task,
    pub result: u16,
}

// The computed table: results of earlier tasks, of which any may be forgotten.
pub trait Cache {
    ghost holds: { Self → Entry → Type 0 };

    fn ask(&self, task: Task) -> Option<u16>
        ensures { IfSome result (λ h. holds self.now (told task h)) };

    fn tell(&mut self, task: Task, res: u16)
        ensures { (e : Entry) → holds self.new e → holds self.old e ⊎ (e ≡ told task res) };

    fn clear(&mut self)
        ensures { (e : Entry) → holds self.new e → ⊥ };
}

// Each task has one place among 1,024, and takes it from the task before.
#[derive(Drop)]
pub struct DirectCache {
    places: [Option<Entry>; 1024],
}

// The task's place: the top bits of its hash.
fn place(task: Task) -> usize
    ensures { result < 1024 }
{
    let mut hasher = FoldHasher::default();
    task.hash(&mut hasher);
    (hasher.finish() >> 54) as usize
}

impl DirectCache {
    // An empty cache.
    pub fn new() -> DirectCache
        ensures { (e : Entry) → Keeps result.places e → ⊥ }
    {
        DirectCache {
            places: [None; 1024],
        }
    }
}

impl Cache for DirectCache {
    ghost holds = { λ c e. Keeps c.places e };

    fn ask(&self, task: Task) -> Option<u16> {
        let e = self.places[place(task)]?;
        (e.task == task).then_some(e.result)
    }

    fn tell(&mut self, task: Task, res: u16) {
        self.places[place(task)] = Some(Entry { task, result: res });
    }

    fn clear(&mut self) {
        self.places = [None; 1024];
    }
}
