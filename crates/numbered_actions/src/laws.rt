//! Laws of the definitions, for readers: each function's contract is one.

ghost use Rattle.numbered_actions.specs.Laws.{NumbersAreKept};

/// The actions that are listed are those of the rules, by their numbers.
pub fn numbers_are_kept()
    ensures { NumbersAreKept }
{}
