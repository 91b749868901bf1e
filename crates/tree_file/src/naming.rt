//! The slot of a root that names a game, or none.
ghost use Rattle.std.specs.Prelude.{◌≡◌, ◌≤◌, IfSome};
ghost use Rattle.game_file.specs.Fields.{commits_in, layout_in, number_of_packing, packing_in, SaysPages};
ghost use Rattle.tree_file.specs.File.{NamesSlot};

use game_file::put_long;
use tree_table::{TreeSlot, empty_slot, game_slot};

/// A root slot of this layout, 3 or later, for this many pages and commits, with the game that this slot names, if any.
pub fn slot_naming(layout: u32, pages: u32, commits: u64, game: &Option<TreeSlot>) -> [u8; 512]
    requires { 3 ≤ layout }
    ensures layout { layout_in result ≡ layout }
    ensures pages { SaysPages result pages }
    ensures commits { commits_in result ≡ commits }
    ensures names { NamesSlot result game.now }
    ensures packing { IfSome game.now (λ slot. packing_in result ≡ number_of_packing slot.packing) }
{
    match game {
        Some(slot) => game_slot(layout, pages, commits, slot),
        None => {
            let mut root = empty_slot(layout, pages);
            put_long(&mut root, 8, commits);
            root
        }
    }
}
