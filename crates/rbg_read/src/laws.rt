//! Laws of the definitions, for readers: each function's contract is one.

ghost use Rattle.std.specs.Prelude.{◌≡◌, ◌≤◌, ◌⊎◌};
ghost use Rattle.rbg_game.specs.Rules.{count};
ghost use Rattle.rbg_game.specs.declared.limits.TheConstants.{MAX_ACTIONS};
ghost use Rattle.rbg_text.specs.Token.{Text};
ghost use Rattle.rbg_game.specs.Games.{Game};
ghost use Rattle.rbg_read.specs.Reads.{Reads, Fault};
ghost use Rattle.rbg_read.specs.declared.fault.GameFault.{GameFault};
ghost use Rattle.rbg_game.specs.Sound.{IsSoundGame};
ghost use Rattle.rbg_game.specs.Names.{HasProperNames};
ghost use Rattle.rbg_game.specs.Take.{take};
ghost use Rattle.rbg_read.specs.TakeText.{take_text};
ghost use Rattle.rbg_read.specs.Example.{example_text, example_game};

/// A game that a text reads to is sound.
pub fn what_is_read_is_sound()
    ensures { (text : Text) (game : Game) → Reads text game → IsSoundGame game }
{}

/// The numbers of the actions of a sound game are within the limit.
pub fn sound_games_are_numbered()
    ensures { (game : Game) → IsSoundGame game → count game.rules ≤ MAX_ACTIONS }
{}

/// The text of the small game reads to it.
pub fn small_game_is_read()
    ensures { Reads take_text take }
{}

/// A text with every construct of the language reads to the game that is written out beside it.
pub fn example_is_read()
    ensures { Reads example_text example_game }
{}

/// A text reads to one game at most.
pub fn a_text_reads_to_one_game()
    ensures { (text : Text) (game other : Game) → Reads text game → Reads text other → game ≡ other }
{}

/// Every text reads to a game or has a fault.
pub fn a_text_reads_or_has_a_fault()
    ensures { (text : Text) → ((game : Game) × Reads text game) ⊎ ((fault : GameFault) × Fault text fault) }
{}

/// A text that reads to a game has no fault.
pub fn what_is_read_has_no_fault()
    ensures { (text : Text) (game : Game) (fault : GameFault) → Reads text game → ¬ Fault text fault }
{}

/// A text has one fault at most.
pub fn a_text_has_one_fault()
    ensures { (text : Text) (fault other : GameFault) → Fault text fault → Fault text other → fault ≡ other }
{}

/// The names of a game that a text reads to are plain, and those of one kind differ.
pub fn what_is_read_has_proper_names()
    ensures { (text : Text) (game : Game) → Reads text game → HasProperNames game }
{}
