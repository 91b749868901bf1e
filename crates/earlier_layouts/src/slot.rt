//! The root slot of layout 1: what its 512 bytes say.
ghost use Rattle.std.specs.Prelude.{◌≡◌, ◌↔◌, true, IfSome, IfNone};
ghost use Rattle.earlier_layouts.specs.Slot.{commits_in, AreZero, Says, IsNoSlot};

use game_file::{Sizes, are_within_limits, are_zero, long_at, packing_numbered, sizes_in, word_at};
use position_pack::PackingKind;

/// The number of this layout.
const LAYOUT: u32 = 1;

/// More edges than this no file has room for.
const MOST_EDGES: u64 = 4_294_967_296;

/// What a slot says of a table with a game.
#[derive(Clone, Copy, PartialEq, Eq, Debug, Drop)]
pub struct GameSlot {
    /// How positions are packed.
    pub packing: PackingKind,
    /// The first page of the chain.
    pub first: u32,
    pub sizes: Sizes,
}

/// What a slot says.
#[derive(Clone, Copy, PartialEq, Eq, Debug, Drop)]
pub struct Slot {
    /// Commits since the file was made; 0 follows the greatest number.
    pub commits: u64,
    /// The table, where a game is loaded.
    pub game: Option<GameSlot>,
}

/// Whether all fields of the layout are zero.
fn is_blank(root: &[u8; 512]) -> bool
    ensures { (result ≡ true) ↔ (AreZero 16 44 root.now × AreZero 60 68 root.now) }
{
    are_zero(root, 16, 44) & are_zero(root, 60, 68)
}

/// What the slot says; none where that is no table of this layout.
pub fn read_slot(root: &[u8; 512]) -> Option<Slot>
    ensures says { IfSome result (λ slot. Says root.now slot.game) }
    ensures commits { IfSome result (λ slot. slot.commits ≡ commits_in root.now) }
    ensures none { IfNone result (IsNoSlot root.now) }
{
    if word_at(root, 0) != LAYOUT {
        return None;
    }
    let commits = long_at(root, 8);
    let number = word_at(root, 4);
    if number == 0 && is_blank(root) {
        return Some(Slot {
            commits,
            game: None,
        });
    }
    let packing = packing_numbered(number)?;
    let sizes = sizes_in(root);
    if !are_within_limits(&sizes) || sizes.edges > MOST_EDGES {
        return None;
    }
    let first = word_at(root, 16);
    Some(Slot {
        commits,
        game: Some(GameSlot {
            packing,
            first,
            sizes,
        }),
    })
}
