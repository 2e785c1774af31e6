ghost use Rattle.table.specs.Decided.{GetDecided, InsertAgain, InsertDecided};

// What a table answers, and its nodes after, are determined by its size and its nodes before.
pub fn outcomes_are_decided()
    ensures insert { InsertDecided }
    ensures get { GetDecided }
    ensures again { InsertAgain }
{}
