//! Positions as text.
ghost use Rattle.std.specs.Prelude.{ℕ, List, IfOk, IfSome, IfNone, MatchOption};
ghost use Rattle.legal_moves.specs.Compiled.{compiled_game, packing_kind};
ghost use Rattle.game_table.specs.Texts.{IsText};

use crate::Source;
use position_pack::{Packed, read_position, show};
use std::alloc::{AllocError, Global};

impl Source {
    /// The text of a position's bytes, as `white 2 v e 0,0,3`: none where they are not those of a position of the game.
    pub fn show(&self, alloc: Global, packed: &Packed) -> Result<Option<Vec<u8>>, AllocError>
        ensures some { IfOk result (λ r. IfSome r (λ text.
            IsText (packing_kind self.now) (compiled_game self.now) packed.now.items text.items)) }
        ensures none { IfOk result (λ r. IfNone r ((text : List ℕ)
            → ¬ IsText (packing_kind self.now) (compiled_game self.now) packed.now.items text)) }
    {
        let game = self.compiled.game();
        match self.compiled.packing().unpack(packed) {
            Some(at) => Ok(Some(show(alloc, game, &at)?)),
            None => Ok(None),
        }
    }

    /// The bytes of the position with this text: none where it is the text of no position of the game. A position has one
    /// text, without a zero or a blank too many. It takes no memory and always answers.
    pub fn position(&self, text: &[u8]) -> Option<Packed>
        ensures { MatchOption result ((bytes : List ℕ)
            → ¬ IsText (packing_kind self.now) (compiled_game self.now) bytes text.now)
            (λ packed. IsText (packing_kind self.now) (compiled_game self.now) packed.items text.now) }
    {
        let game = self.compiled.game();
        let at = read_position(game, text)?;
        Some(self.compiled.packing().pack(&at))
    }
}
