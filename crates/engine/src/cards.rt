// The cards of a graph, by the handles of their conditions; only this crate makes them and takes them apart.
ghost use Rattle.std.specs.Prelude.{◌≡◌};

// A card that still takes conditions.
#[derive(Drop)]
pub struct Draft {
    pub(crate) condition: u16,
}

// A card that takes no more, the only kind that is listed.
#[derive(Drop)]
pub struct Closed {
    pub(crate) condition: u16,
}

impl Draft {
    // A card that is never done.
    pub fn new() -> Self
        ensures { result.condition ≡ 0 }
    {
        Draft { condition: 0 }
    }
}

// The card with the conditions that it has.
pub fn close(draft: Draft) -> Closed
    ensures { result.condition ≡ draft.condition }
{
    let Draft { condition } = draft;
    Closed { condition }
}

impl Closed {
    // The handle of the card's condition, in the graph that it was made over.
    pub fn condition(&self) -> u16
        ensures { result ≡ self.now.condition }
    {
        self.condition
    }
}
