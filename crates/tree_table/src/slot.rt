//! The root slot of a table on trees: what its 512 bytes say.
ghost use Rattle.std.specs.Prelude.{◌≡◌, ◌+◌, ◌≤◌, ◌<◌, ℕ, Option, Some, slice_index, IfSome, IfNone};
ghost use Rattle.position_pack.specs.declared.kind.PackingKind.{PackingKind};
ghost use Rattle.rbg_game.specs.declared.limits.TheConstants.{MAX_POINTS};
ghost use Rattle.game_file.specs.Fields.{word_at as word_in, packing_in, commits_in, capacity_in, goal_number_in};
ghost use Rattle.tree_table.specs.Slot.{roots_in, IsGameTreeSlot, IsNoTreeSlot, SaysTrees, IsEmptySlotOf, IsGameSlotOf, HasSizes};

use crate::tree::Roots;
use game_file::{
    Sizes, are_within_limits, are_zero, long_at, number_of_packing, packing_numbered, put_long,
    put_word, sizes_in, word_at,
};
use position_pack::PackingKind;
use rbg_game::limits::MAX_POINTS;

/// The first layout whose slot says how many pages there are, and may name a goal.
pub const FIRST_WITH_GOALS: u32 = 3;

/// What a slot says of a table with a game; of one without, all is 0.
#[derive(Clone, Copy, PartialEq, Eq, Debug, Drop)]
pub struct TreeSlot {
    /// How its positions are packed.
    pub packing: PackingKind,
    /// The points of its goal, 0 for none.
    pub goal: u32,
    /// The first page of the chain of the text.
    pub first: u32,
    pub sizes: Sizes,
    pub roots: Roots,
}

/// What a slot says.
#[derive(Clone, Copy, PartialEq, Eq, Debug, Drop)]
pub struct Slot {
    /// Commits since the file was made; 0 follows the greatest number.
    pub commits: u64,
    /// How many pages there are, in layouts from 3 on.
    pub capacity: u32,
    /// The table, where a game is loaded.
    pub game: Option<TreeSlot>,
}

/// The root pages of the trees.
fn roots_in(root: &[u8; 512]) -> Roots
    ensures { result ≡ roots_in root.now }
{
    Roots {
        positions: word_at(root, 44),
        records: word_at(root, 48),
        edges: word_at(root, 52),
        order: word_at(root, 56),
    }
}

/// The number of the goal, 0 in layouts that have none.
fn goal_number(root: &[u8; 512]) -> u32
    ensures { result ≡ goal_number_in root.now }
{
    if word_at(root, 0) < FIRST_WITH_GOALS {
        0
    } else {
        word_at(root, 72)
    }
}

/// What the slot of a table with a game says, in which the packing has this number; none where that is no table.
fn read_game(root: &[u8; 512], number: u32) -> Option<TreeSlot>
    requires { number ≡ packing_in root.now }
    ensures says { IfSome result (λ slot. SaysTrees root.now (Some slot)) }
    ensures none { IfNone result ((kind : PackingKind) (goal : Option ℕ) → ¬ IsGameTreeSlot root.now kind goal) }
{
    let packing = packing_numbered(number)?;
    let goal = goal_number(root);
    let sizes = sizes_in(root);
    if goal > MAX_POINTS || !are_within_limits(&sizes) || sizes.packed == 0 {
        return None;
    }
    let first = word_at(root, 16);
    let roots = roots_in(root);
    Some(TreeSlot {
        packing,
        goal,
        first,
        sizes,
        roots,
    })
}

/// What the slot says; none where that is no table on trees.
pub fn read_slot(root: &[u8; 512]) -> Option<Slot>
    ensures says { IfSome result (λ slot. SaysTrees root.now slot.game) }
    ensures commits { IfSome result (λ slot. slot.commits ≡ commits_in root.now) }
    ensures capacity { IfSome result (λ slot. slot.capacity ≡ capacity_in root.now) }
    ensures none { IfNone result (IsNoTreeSlot root.now) }
{
    let commits = long_at(root, 8);
    let capacity = word_at(root, 68);
    let number = word_at(root, 4);
    if number == 0 && are_zero(root, 16, 68) && goal_number(root) == 0 {
        return Some(Slot {
            commits,
            capacity,
            game: None,
        });
    }
    let game = read_game(root, number)?;
    Some(Slot {
        commits,
        capacity,
        game: Some(game),
    })
}

/// What a slot of this layout has for this many pages: 0 where the layout does not say how many there are.
fn number_of_pages(layout: u32, pages: u32) -> u32
    ensures said { 3 ≤ layout → result ≡ pages }
    ensures unsaid { layout < 3 → result ≡ 0 }
{
    if layout < FIRST_WITH_GOALS { 0 } else { pages }
}

/// The slot of a table of this layout and this many pages in which no game is loaded, after no commit.
pub fn empty_slot(layout: u32, pages: u32) -> [u8; 512]
    ensures { IsEmptySlotOf layout pages result }
{
    let mut root = [0; 512];
    put_word(&mut root, 0, layout);
    put_word(&mut root, 68, number_of_pages(layout, pages));
    root
}

/// Puts the root pages of the trees into a slot.
fn put_roots(root: &mut [u8; 512], roots: Roots)
    ensures roots { roots_in root.new ≡ roots }
    ensures before { (k : ℕ) → k + 4 ≤ 44 → word_in root.new k ≡ word_in root.old k }
    ensures ahead { (k : ℕ) → k < 44 → slice_index root.new k ≡ slice_index root.old k }
    ensures behind { (k : ℕ) → 60 ≤ k → slice_index root.new k ≡ slice_index root.old k }
{
    put_word(root, 44, roots.positions);
    put_word(root, 48, roots.records);
    put_word(root, 52, roots.edges);
    put_word(root, 56, roots.order);
}

/// The slot of a table of this layout and this many pages with a game, after this many commits. It names the goal where the layout has a
/// place for it. All bytes without a field are zero.
pub fn game_slot(layout: u32, pages: u32, commits: u64, slot: &TreeSlot) -> [u8; 512]
    ensures { IsGameSlotOf layout pages commits slot.now result }
{
    let mut root = empty_slot(layout, pages);
    put_word(&mut root, 4, number_of_packing(slot.packing));
    put_long(&mut root, 8, commits);
    put_word(&mut root, 16, slot.first);
    put_sizes(&mut root, &slot.sizes);
    put_roots(&mut root, slot.roots);
    put_long(&mut root, 60, slot.sizes.edges);
    put_word(&mut root, 72, slot.goal);
    root
}

/// Puts into a slot how much there is of the text and the table, but for the edges.
fn put_sizes(root: &mut [u8; 512], sizes: &Sizes)
    ensures { HasSizes sizes.now root.old root.new }
{
    put_word(root, 20, sizes.text);
    put_word(root, 24, sizes.packed);
    put_word(root, 28, sizes.counts.known);
    put_word(root, 32, sizes.counts.expanded);
    put_word(root, 36, sizes.counts.settled);
    put_word(root, 40, sizes.counts.processed);
}
