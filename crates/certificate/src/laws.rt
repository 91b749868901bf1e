//! What holds of every game: each is a law, which proofs cite by a call.
ghost use Rattle.std.specs.Prelude.{◌≡◌, ◌≤◌, ◌⊎◌, ℕ, List, Option};
ghost use Rattle.rbg_text.specs.Token.{Text};
ghost use Rattle.rbg_game.specs.declared.roles.Player.{Player};
ghost use Rattle.retrograde.specs.Values.{WinsWithin};
ghost use Rattle.certificate.specs.Answers.{IsCertificateAnswer, refusal_line};
ghost use Rattle.certificate.specs.Format.{Line};
ghost use Rattle.certificate.specs.Lists.{Has};
ghost use Rattle.certificate.specs.Right.{IsAcceptable, ShowsItsClaim};
ghost use Rattle.certificate.specs.Strategies.{IsStrategy, IsDelay, IsSafeSet, RanksFrom};
ghost use Rattle.certificate.specs.declared.fault.CertificateFault.TheVariants.{OutOfMemory, TooWide};

use retrograde::GameGraph;

/// In a strategy of a player each position is won in at most as many moves as its rank.
pub fn a_strategy_wins<M: GameGraph>()
    ensures { (game : M) (w : Player) (list : List Line) (x : List ℕ) (n : ℕ) → IsStrategy (M.graph game) w (Has list)
        → Has list x n → WinsWithin (M.graph game) w n x }
{}

/// In a delay of a player no position is won in fewer moves than its rank.
pub fn a_delay_holds<M: GameGraph>()
    ensures { (game : M) (w : Player) (list : List Line) (x : List ℕ) (n m : ℕ) → IsDelay (M.graph game) w (Has list)
        → Has list x n → WinsWithin (M.graph game) w m x → n ≤ m }
{}

/// What is safe from a player is never won by that player.
pub fn what_is_safe_is_never_won<M: GameGraph>()
    ensures { (game : M) (w : Player) (list : List Line) (x : List ℕ) (n m : ℕ)
        → IsSafeSet (M.graph game) w (RanksFrom (Has list) n) → RanksFrom (Has list) n x → ¬ WinsWithin (M.graph game) w m x }
{}

/// A certificate that shows what it claims is answered with status 0: it is refused only for a search that is too wide, or for want of memory.
pub fn what_shows_its_claim_is_certified()
    ensures { (certificate : List ℕ) (given : Option Text) (status : ℕ) (written : List ℕ)
        → ShowsItsClaim certificate given → IsCertificateAnswer certificate given status written
        → (status ≡ 0) ⊎ ((written ≡ refusal_line TooWide) ⊎ (written ≡ refusal_line OutOfMemory)) }
{}

/// One at which no search is too wide is refused only for want of memory: so one that `check` has accepted is accepted each time.
pub fn what_is_acceptable_is_certified()
    ensures { (certificate : List ℕ) (given : Option Text) (status : ℕ) (written : List ℕ)
        → IsAcceptable certificate given → IsCertificateAnswer certificate given status written
        → (status ≡ 0) ⊎ (written ≡ refusal_line OutOfMemory) }
{}
