//! What holds of every map: each is a law, which proofs cite by a call, or by the lemma of the same name in specs/.
ghost use Rattle.std.specs.Prelude.{◌≡◌, ◌≤◌, ◌^◌, ℕ, List, length, Contains, IsTrue};
ghost use Rattle.std.specs.declared.cmp.Ordering.TheVariants.{Less};
ghost use Rattle.page_store.specs.declared.holds.HoldPlace.{HoldPlace};
ghost use Rattle.page_store.specs.declared.marks.Mark.TheVariants.{Committed, Waiting};
ghost use Rattle.page_store.specs.Marks.{mark, IsNeeded};
ghost use Rattle.page_store.specs.Spelled.{SpelledBy, Stands, StandsHeld, IsPrepared};
ghost use Rattle.page_store.specs.Store.{Store, reads, StoreWorks, IsHoldTaken};
ghost use Rattle.btree.specs.Page.{Item, key_cmp};
ghost use Rattle.btree.specs.declared.page.widths.Widths.{Widths};
ghost use Rattle.btree.specs.Changes.{AreHeld, HoldsMap, TakePlace};
ghost use Rattle.btree.specs.Entries.{Ascend, find_entry, next_after, put_entry};
ghost use Rattle.btree.specs.Next.{IsNextEntry};
ghost use Rattle.btree.specs.Tree.{pages_below, IsTree, IsRooted, IsMap};
ghost use Rattle.page_store.specs.declared.limits.TheConstants.{MAX_PAGES};

/// A map rests on its own pages alone.
pub fn a_map_rests_on_its_pages()
    ensures { (w : Widths) (capacity root : ℕ) (pages : List ℕ) (es : List Item) (bytes : ℕ → List ℕ)
        → IsMap w capacity root pages es bytes → SpelledBy (λ p. Contains pages p) bytes (IsMap w capacity root pages es) }
{}

/// Below a root there is one map at most.
pub fn a_root_has_one_map()
    ensures { (w : Widths) (capacity root : ℕ) (pages others : List ℕ) (es fs : List Item) (bytes : ℕ → List ℕ)
        → IsMap w capacity root pages es bytes → IsMap w capacity root others fs bytes → (pages ≡ others) × (es ≡ fs) }
{}

/// Each level at least doubles the pages of a tree.
pub fn a_tree_is_wide()
    ensures { (w : Widths) (bytes : ℕ → List ℕ) (depth page : ℕ) → IsTree w bytes depth page
        → 2 ^ depth ≤ length (pages_below w bytes depth page) }
{}

/// A map on pages that were handed out or are marked is prepared for the next commit.
pub fn a_map_is_prepared()
    ensures { (w : Widths) (capacity root : ℕ) (pages : List ℕ) (es : List Item) (store : Store)
        → capacity ≤ length store.marks → IsMap w capacity root pages es (reads store) → AreHeld store.marks pages
        → IsPrepared (λ p. Contains pages p) (IsMap w capacity root pages es) store }
{}

/// A map on pages that are marked is one that the committed root may need.
pub fn a_map_stands()
    ensures { (w : Widths) (capacity root : ℕ) (pages : List ℕ) (es : List Item) (store : Store)
        → capacity ≤ length store.marks → IsMap w capacity root pages es (reads store)
        → ((p : ℕ) → Contains pages p → mark store.marks p ≡ Committed)
        → Stands (λ p. Contains pages p) (IsMap w capacity root pages es) store }
{}

/// A map of the committed root, as a hold is taken on it: its pages stay for the hold, and are the same map until the hold is let go.
pub fn a_map_is_held()
    ensures { (w : Widths) (root : ℕ) (pages : List ℕ) (es : List Item) (place : HoldPlace) (old new : Store)
        → ((p : ℕ) → mark old.marks p ≡ Waiting → ⊥) → IsHoldTaken place old new → HoldsMap w old root pages es
        → ((p : ℕ) → Contains pages p → IsNeeded old.marks p)
        → StandsHeld place (λ p. Contains pages p) (IsMap w (length old.marks) root pages es) new }
{}

/// A map that a hold needs is there: it is read as any other.
pub fn a_held_map_is_there()
    ensures { (w : Widths) (root : ℕ) (pages : List ℕ) (es : List Item) (place : HoldPlace) (store : Store)
        → StandsHeld place (λ p. Contains pages p) (IsMap w (length store.marks) root pages es) store → HoldsMap w store root pages es }
{}

/// A map has at most 21 levels, since there are at most 1,048,576 pages and it has each page once.
pub fn a_map_is_shallow()
    ensures { (w : Widths) (capacity root : ℕ) (pages : List ℕ) (es : List Item) (bytes : ℕ → List ℕ)
        (map : IsRooted w capacity root pages es bytes) → capacity ≤ MAX_PAGES → map.depth ≤ 20 }
{}

/// Where pages take the place of those of one map, another map stays, on pages that are in use and its own.
pub fn another_map_stays()
    ensures { (w : Widths) (old new : Store) (pages others : List ℕ) → IsTrue old.disk.honest → StoreWorks old new
        → TakePlace pages others old new → (root : ℕ) (its : List ℕ) (es : List Item) → HoldsMap w old root its es
        → AreHeld old.marks its → ((p : ℕ) → Contains pages p → Contains its p → ⊥)
        → HoldsMap w new root its es × AreHeld new.marks its × ((p : ℕ) → Contains others p → Contains its p → ⊥) }
{}

/// After a put the keys ascend as before.
pub fn puts_ascend()
    ensures { (es : List Item) (key value : List ℕ) → Ascend es → Ascend (put_entry es key value) }
{}

/// After a put its value is found at its key.
pub fn a_put_is_found()
    ensures { (es : List Item) (key value : List ℕ) → find_entry (put_entry es key value) key ≡ Some value }
{}

/// After a put what was there before is found at each other key.
pub fn others_are_found()
    ensures { (es : List Item) (key value other : List ℕ) → (other ≡ key → ⊥)
        → find_entry (put_entry es key value) other ≡ find_entry es other }
{}

/// The next entry is the one with the least greater key.
pub fn the_next_is_the_least()
    ensures { (es : List Item) (key : List ℕ) (next : Item) → Ascend es → next_after es key ≡ Some next → IsNextEntry es key next }
{}

/// Where there is no next entry, no key is greater.
pub fn no_next_is_greater()
    ensures { (es : List Item) (key : List ℕ) → next_after es key ≡ None → (e : Item) → Contains es e
        → key_cmp key e.0 ≡ Less → ⊥ }
{}
