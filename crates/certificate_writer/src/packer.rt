//! Positions by their texts, as bits.
ghost use Rattle.std.specs.Prelude.{IfOk};

use position_pack::{Packed, Packing, PackingKind, read_position};
use rbg_game::game::Game;
use rbg_read::read::read_game;
use solver::SolverFault;
use std::alloc::Global;

/// A game, and the packing of its positions by bits.
#[derive(Drop)]
pub struct Packer {
    pub game: Game,
    packing: Packing,
}

impl Packer {
    ghost use Rattle.std.specs.Prelude.{IfOk};
    ghost use Rattle.certificate_writer.specs.Packers.{IsProper};

    /// The game of a text.
    pub fn read(alloc: Global, text: &[u8]) -> Result<Packer, SolverFault>
        ensures { IfOk result IsProper }
    {
        match read_game(alloc, text) {
            Ok(game) => {
                let packing = Packing::new(&game, PackingKind::Bits);
                Ok(Packer { game, packing })
            }
            Err(fault) => Err(SolverFault::Game(fault)),
        }
    }

    /// The bits of the position with this text.
    pub fn pack(&self, text: &[u8]) -> Option<Packed>
        requires { IsProper self.now }
    {
        match read_position(&self.game, text) {
            Some(at) => Some(self.packing.pack(&at)),
            None => None,
        }
    }
}
