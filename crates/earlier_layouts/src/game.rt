//! A game in memory, as a file keeps it.
ghost use Rattle.std.specs.Prelude.{◌≤◌, length};
ghost use Rattle.position_pack.specs.declared.limits.TheConstants.{MAX_PACKED};
ghost use Rattle.rbg_game.specs.declared.limits.TheConstants.{MAX_TEXT_BYTES};

use position_pack::PackingKind;
use table::MemTable;

/// A game's text, and its table as of the last commit.
#[derive(Drop)]
pub struct Game {
    pub text: Vec<u8>,
    /// How its positions are packed.
    pub packing: PackingKind,
    /// Bytes of each packed position.
    pub packed: u32,
    /// The pages that hold both, in turn.
    pub pages: Vec<u32>,
    pub table: MemTable,
    ghost text_fits: { length text.items ≤ MAX_TEXT_BYTES },
    ghost packed_fits: { packed ≤ MAX_PACKED },
}

/// What a file holds as it is opened.
#[derive(Drop)]
pub struct Opened {
    /// Commits since the file was made.
    pub commits: u64,
    /// The table, where a game is loaded.
    pub game: Option<Game>,
}
