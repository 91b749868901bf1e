//! All that the root of a file names is read and looked at.
ghost use Rattle.std.specs.Prelude.{◌≡◌, ◌≤◌, ◌<◌, Some, length, OnErr, IfOk, IfErr};
ghost use Rattle.page_store.specs.Store.{StoreWorks};
ghost use Rattle.page_store.specs.Frames.{IsReadOn, OnlyMarks};
ghost use Rattle.tree_table.specs.Slot.{SaysTrees};
ghost use Rattle.game_file.specs.Fields.{commits_in};
ghost use Rattle.page_store.specs.declared.limits.TheConstants.{MIN_PAGES};
ghost use Rattle.tree_file.specs.Opened.{IsFoundInFile, IsRootRead, RootCause};
ghost use Rattle.page_store.specs.Pages.{AllWait};
ghost use Rattle.tree_file.specs.lemmas.GameReads.{IsReadFor, NoGameReadCause};

use crate::{check_entries, walk_trees};
use game_file::{FileFault, word_at};
use page_chain::read_chain;
use page_store::{MIN_PAGES, Pages};
use std::alloc::Global;
use tree_table::{FIRST_WITH_GOALS, Slot, TreeSlot, read_slot};

/// How many pages a store has: as many as the slot says, or, where its layout does not say, as there is room for.
fn pages_said(layout: u32, said: u32, room: u32) -> u32
    ensures said { 3 ≤ layout → result ≡ said }
    ensures unsaid { layout < 3 → result ≡ room }
{
    if layout < FIRST_WITH_GOALS {
        room
    } else {
        said
    }
}

/// What the root of a store that was just opened says, of a table of this layout; the store has as many pages then as the root says.
/// `OldLayout` where the root names an earlier layout, `Damaged` where it is else no root of a table of this layout.
pub fn read_root<P: Pages>(store: &mut P, layout: u32) -> Result<Slot, FileFault>
    requires { AllWait (P.store store.old) }
    ensures read { IfOk result (λ slot. IsRootRead layout slot (P.store store.old) (P.store store.new)) }
    ensures kept { OnErr result (P.store store.new ≡ P.store store.old) }
    ensures cause { IfErr result (RootCause layout (P.store store.old)) }
{
    let root = store.root();
    let named = word_at(&root.bytes, 0);
    if 1 <= named && named < layout {
        return Err(FileFault::OldLayout);
    }
    if named != layout {
        return Err(FileFault::Damaged);
    }
    let Some(slot) = read_slot(&root.bytes) else {
        return Err(FileFault::Damaged);
    };
    let room = store.capacity();
    let pages = pages_said(layout, slot.capacity, room);
    if pages < MIN_PAGES || pages > room {
        return Err(FileFault::Damaged);
    }
    store.set_capacity(pages);
    Ok(slot)
}

/// Reads and looks at all that the root of a store names, of which no page is marked yet, marks its pages, and seals the store. It answers
/// the text of the game. `Damaged` where slot and pages spell no table whose parts fit together. A stop meanwhile leaves what it could
/// leave before.
pub fn read_all<P: Pages>(alloc: Global, store: &mut P, slot: &Slot) -> Result<Vec<u8>, FileFault>
    requires says { SaysTrees (P.store store.old).root slot.now.game }
    requires commits { slot.now.commits ≡ commits_in (P.store store.old).root }
    requires enough { MIN_PAGES ≤ length (P.store store.old).marks }
    requires waits { AllWait (P.store store.old) }
    ensures found { IfOk result (λ text. IsFoundInFile slot.now.commits slot.now.game text.items (P.store store.new)) }
    ensures on { IsReadOn (P.store store.old) (P.store store.new) }
    ensures works { IfErr result (λ _. StoreWorks (P.store store.old) (P.store store.new)) }
    ensures cause { IfErr result (NoGameReadCause (P.store store.old) (P.store store.new)) }
{
    let text = read_named(alloc, store, &slot.game)?;
    store.seal();
    Ok(text)
}

/// Reads the game that the slot names, if one, and answers its text.
fn read_named<P: Pages>(
    alloc: Global,
    store: &mut P,
    game: &Option<TreeSlot>,
) -> Result<Vec<u8>, FileFault>
    requires { SaysTrees (P.store store.old).root game.now }
    ensures only { OnlyMarks (P.store store.old) (P.store store.new) }
    ensures read { IfOk result (λ text. IsReadFor game.now text.items (P.store store.old) (P.store store.new)) }
    ensures cause { IfErr result (NoGameReadCause (P.store store.old) (P.store store.new)) }
{
    match game {
        None => Ok(Vec::new(alloc)),
        Some(slot) => read_game(alloc, store, slot),
    }
}

/// Reads a game's text, walks the trees of its table, and looks at their entries.
fn read_game<P: Pages>(alloc: Global, store: &mut P, slot: &TreeSlot) -> Result<Vec<u8>, FileFault>
    requires { SaysTrees (P.store store.old).root (Some slot.now) }
    ensures only { OnlyMarks (P.store store.old) (P.store store.new) }
    ensures read { IfOk result (λ text. IsReadFor (Some slot.now) text.items (P.store store.old) (P.store store.new)) }
    ensures cause { IfErr result (NoGameReadCause (P.store store.old) (P.store store.new)) }
{
    let chain = read_chain(alloc, store, slot.first, slot.sizes.text as usize)?;
    walk_trees(store, slot)?;
    check_entries(alloc, store, slot)?;
    Ok(chain.content)
}
