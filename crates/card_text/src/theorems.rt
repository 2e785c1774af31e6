// Theorems on the rules of card texts; each function carries its own.
ghost use Rattle.card_text.specs.Exact.{OneCard, CardKept, OneFault};
ghost use Rattle.card_text.specs.Layout.{CardsAreWritten, WrittenCard};

// A text is one card at most, no card is refused, and a text is refused for one fault at one place.
pub fn rules_are_exact()
    ensures card { OneCard }
    ensures kept { CardKept }
    ensures fault { OneFault }
{}

// The cards are the texts that are written from a title, names and formulas that keep the rules.
pub fn cards_are_written()
    ensures is { CardsAreWritten }
    ensures all { WrittenCard }
{}
