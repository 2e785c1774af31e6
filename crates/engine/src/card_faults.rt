ghost use Rattle.std.specs.Prelude.{◌≡◌};
ghost use Rattle.engine.specs.declared.card_faults.CardFault.TheVariants.{Text, Graph, ShortOutput};
ghost use Rattle.engine.specs.CardFaults.{card_number, card_place};

use crate::faults::GraphFault;
use card_text::TextFault;
use listing::ListFault;

// Why a card call is refused; a text's fault and a graph's are carried whole.
#[derive(Clone, Copy, PartialEq, Eq, Debug)]
pub enum CardFault {
    Text(TextFault),
    Graph(GraphFault),
    ShortOutput,
}

impl CardFault {
    // The number by which callers in C and price lists know the fault.
    pub fn number(self) -> u8
        ensures { result ≡ card_number self }
    {
        match self {
            CardFault::Text(e) => e.number(),
            CardFault::Graph(e) => e.number(),
            CardFault::ShortOutput => 15,
        }
    }

    // An offset in the card's text; 0 for faults of the state.
    pub fn place(self) -> usize
        ensures { result ≡ card_place self }
    {
        match self {
            CardFault::Text(e) => e.place(),
            CardFault::Graph(e) => e.place(),
            CardFault::ShortOutput => 0,
        }
    }
}

impl From<TextFault> for CardFault {
    ghost from_gives = { λ x y. y ≡ Text x };

    fn from(fault: TextFault) -> CardFault {
        CardFault::Text(fault)
    }
}

impl From<GraphFault> for CardFault {
    ghost from_gives = { λ x y. y ≡ Graph x };

    fn from(fault: GraphFault) -> CardFault {
        CardFault::Graph(fault)
    }
}

// A list's one fault is that the output is too short.
impl From<ListFault> for CardFault {
    ghost from_gives = { λ _ y. y ≡ ShortOutput };

    fn from(_fault: ListFault) -> CardFault {
        CardFault::ShortOutput
    }
}
