//! Laws of the definitions, for readers: each function's contract is one.
ghost use Rattle.legal_moves.specs.Laws.{ActionsLeadToOne, BytesAreOfOnePosition, BytesSayMoverAndLeader, EndsAgree, FollowsByWalks};
ghost use Rattle.legal_moves.specs.Laws.{MovesAreSearched, PlaysAgree, SoundActionsArePlain, SoundExpressionsAreSmall};
ghost use Rattle.legal_moves.specs.Laws.{SuccessorsArePositions, ValuesFitTheMachine};
ghost use Rattle.legal_moves.specs.Moves.{IsSuccessor, start_of};
ghost use Rattle.rbg_game.specs.Take.{take};
ghost use Rattle.legal_moves.specs.Take.{after_first_move};
ghost use Rattle.std.specs.Prelude.{◌≡◌, ◌↔◌};
ghost use Rattle.rbg_game.specs.declared.position.Position.{Position};

/// What can follow a place in a word, and which words are moves, can be found an occurrence at a time.
pub fn laws_of_words()
    ensures follows { FollowsByWalks }
    ensures moves { MovesAreSearched }
{}

/// An action leads from a semi-state to one semi-state or to none.
pub fn actions_lead_to_one()
    ensures { ActionsLeadToOne }
{}

/// What `act` asks of an action holds of the actions of a sound game.
pub fn sound_actions()
    ensures { SoundActionsArePlain }
{}

/// An expression of a sound game has at each state the value that it has without bounds: none of its
/// steps leaves the signed 64-bit numbers.
pub fn sound_expressions()
    ensures small { SoundExpressionsAreSmall }
    ensures fit { ValuesFitTheMachine }
{}

/// A position of a game leads to positions of the game alone.
pub fn successors_are_positions()
    ensures { SuccessorsArePositions }
{}

/// What a source of moves says of bytes is what the game says of their position.
pub fn bytes_say()
    ensures mover_and_leader { BytesSayMoverAndLeader }
    ensures one_position { BytesAreOfOnePosition }
{}

/// What is said of positions and what is said of their bytes as a graph is the same: where a play ends, and where plays come to.
pub fn graph_is_the_game()
    ensures ends { EndsAgree }
    ensures plays { PlaysAgree }
{}

/// The start of the small game has one successor.
pub fn small_game()
    ensures { (next : Position) → IsSuccessor take (start_of take) next ↔ (next ≡ after_first_move) }
{}
