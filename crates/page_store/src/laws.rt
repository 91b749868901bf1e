//! What holds of every store: each is a law, which proofs cite by a call, or by the lemma of the same name in specs/.
ghost use Rattle.std.specs.Prelude.{◌≡◌, ◌≢◌, ◌≤◌, ◌<◌, ℕ, List, false, length, IsTrue};
ghost use Rattle.sector_disk.specs.Disk.{Disk};
ghost use Rattle.page_store.specs.declared.holds.HoldPlace.{HoldPlace};
ghost use Rattle.page_store.specs.declared.marks.Mark.TheVariants.{Committed, Waiting, Fresh, Free};
ghost use Rattle.page_store.specs.Holds.{needed_by};
ghost use Rattle.page_store.specs.Marks.{mark, is_past, AreSealed, AreDiscarded};
ghost use Rattle.page_store.specs.Store.{Store, reads, StopLeaves, IsSafe, StoreWorks, Commits, IsRemarked, IsCommitted, IsOpened};
ghost use Rattle.page_store.specs.Store.{IsHeldBy, IsSoundStore, IsHoldTaken, IsLetGo, StoreGrows, IsStoreGrown};
ghost use Rattle.page_store.specs.Spelled.{SpelledBy, Stands, StandsHeld, IsPrepared, Spells, IsCarried, IsCarriedGrown, IsCalm, IsBack};

/// What the pages of a root spell for a layer above: a chain, a tree, a whole table. Only proofs speak of it.
pub trait Spelling {
    /// Pages with these bytes spell it.
    ghost spelt: { (ℕ → List ℕ) → Type 0 };

    /// The pages that it rests on.
    ghost named: { ℕ → Type 0 };
}

/// Work and then a commit of a new root: a stop leaves the old root and what its pages spelt, or the new root and what
/// was prepared under it. After `Ok` the new stands, and after a refusal that left the store as it was the old.
pub fn commit_carries<Was: Spelling, Is: Spelling>()
    ensures { (root : List ℕ) (old mid new : Store) → IsTrue old.disk.honest → IsSafe old
        → Stands Was.named Was.spelt old → StoreWorks old mid → IsPrepared Is.named Is.spelt mid → Commits root mid new
        → IsCarried root Was.named Was.spelt Is.named Is.spelt old mid new }
{}

/// A store in which nothing is handed out or released grows: what its pages spell stands, and a stop leaves it under the old root, or
/// under the new one with room for this many pages; after a refusal that left the store open, under the old.
pub fn grow_carries<S: Spelling>()
    ensures { (root : List ℕ) (pages : ℕ) (old new : Store) → IsTrue old.disk.honest → IsSafe old → IsSoundStore old
        → length old.marks < pages → IsCalm old → Stands S.named S.spelt old → StoreGrows root pages old new
        → IsCarriedGrown root pages S.named S.spelt old new }
{}

/// A stop leaves the committed root and what its pages spell.
pub fn stop_leaves<S: Spelling>()
    ensures { (store : Store) → Stands S.named S.spelt store → IsSafe store
        → StopLeaves store (Spells store.root (length store.marks) S.spelt) }
{}

/// A call that commits nothing keeps what the pages of the committed root spell.
pub fn works_stands<S: Spelling>()
    ensures { (old new : Store) → IsTrue old.disk.honest → StoreWorks old new
        → Stands S.named S.spelt old → Stands S.named S.spelt new }
{}

/// As the store is opened, each page is kept that the root may name.
pub fn opened_stands<S: Spelling>()
    ensures { (disk : Disk) (count : ℕ) (store : Store) → IsOpened disk count store
        → ((p : ℕ) → S.named p → (1 ≤ p) × (p < length store.marks))
        → SpelledBy S.named (reads store) S.spelt → Stands S.named S.spelt store }
{}

/// Once the pages that the root names are marked, sealing keeps what they spell.
pub fn sealed_stands<S: Spelling>()
    ensures { (old new : Store) → IsRemarked old new → AreSealed old.marks new.marks
        → ((p : ℕ) → S.named p → mark old.marks p ≡ Committed) → Stands S.named S.spelt old → Stands S.named S.spelt new }
{}

/// Work and then `discard` go back to the last commit: the root, the marks and the bytes of each needed page.
pub fn discard_goes_back()
    ensures { (old mid new : Store) → IsCalm old → StoreWorks old mid → AreDiscarded mid.marks new.marks → IsRemarked mid new
        → IsBack old new }
{}

/// After a commit nothing is handed out or released.
pub fn committed_calm()
    ensures { (root : List ℕ) (old new : Store) → ((p : ℕ) → mark old.marks p ≡ Waiting → ⊥) → IsCommitted root old new
        → IsCalm new }
{}

/// After growing nothing is handed out or released.
pub fn grown_calm()
    ensures { (root : List ℕ) (pages : ℕ) (old new : Store) → ((p : ℕ) → mark old.marks p ≡ Waiting → ⊥) → IsStoreGrown root pages old new
        → IsCalm new }
{}

/// A hold pins the pages of the committed root: what they encode stands until it is released.
pub fn hold_stands<S: Spelling>()
    ensures { (place : HoldPlace) (old new : Store) → ((p : ℕ) → mark old.marks p ≡ Waiting → ⊥) → IsHoldTaken place old new
        → Stands S.named S.spelt old → StandsHeld place S.named S.spelt new }
{}

/// Taking a second hold leaves what the first pins.
pub fn hold_stands_held<S: Spelling>()
    ensures { (place other : HoldPlace) (old new : Store) → IsSoundStore old → place ≢ other → IsHoldTaken place old new
        → StandsHeld other S.named S.spelt old → StandsHeld other S.named S.spelt new }
{}

/// A call that commits nothing leaves what a hold pins, and so does `discard`.
pub fn works_stands_held<S: Spelling>()
    ensures { (place : HoldPlace) (old new : Store) → IsTrue old.disk.honest → StoreWorks old new
        → StandsHeld place S.named S.spelt old → StandsHeld place S.named S.spelt new }
{}

/// A commit keeps what a hold needs, whatever it answers.
pub fn commit_stands_held<S: Spelling>()
    ensures { (place : HoldPlace) (root : List ℕ) (old new : Store) → IsTrue old.disk.honest → Commits root old new
        → StandsHeld place S.named S.spelt old → StandsHeld place S.named S.spelt new }
{}

/// Growing keeps what a hold needs, whatever it answers.
pub fn grow_stands_held<S: Spelling>()
    ensures { (place : HoldPlace) (root : List ℕ) (pages : ℕ) (old new : Store) → IsTrue old.disk.honest → StoreGrows root pages old new
        → StandsHeld place S.named S.spelt old → StandsHeld place S.named S.spelt new }
{}

/// Releasing one hold leaves what another one pins.
pub fn let_go_stands_held<S: Spelling>()
    ensures { (place other : HoldPlace) (old new : Store) → place ≢ other → IsLetGo place old new
        → StandsHeld other S.named S.spelt old → StandsHeld other S.named S.spelt new }
{}

/// A hold is let go: what the pages of the committed root spell stands.
pub fn let_go_stands<S: Spelling>()
    ensures { (place : HoldPlace) (old new : Store) → IsLetGo place old new → Stands S.named S.spelt old → Stands S.named S.spelt new }
{}

/// A hold is let go between commands: nothing is handed out or released.
pub fn let_go_calm()
    ensures { (place : HoldPlace) (old new : Store) → IsLetGo place old new → IsCalm old → IsCalm new }
{}

/// A page that a hold needs is neither free nor handed out: it is not given to anybody else, and not written.
pub fn what_is_held_is_not_free()
    ensures { (store : Store) (place : HoldPlace) (p : ℕ) → IsSoundStore store → IsHeldBy place store p
        → (mark store.marks p ≢ Free) × (mark store.marks p ≢ Fresh) }
{}

/// Where no hold is taken no page stays for one.
pub fn nothing_stays_without_a_hold()
    ensures { (store : Store) → IsSoundStore store → ((place : HoldPlace) → needed_by store.holds.taken place ≡ false) → (p : ℕ)
        → is_past (mark store.marks p) ≡ false }
{}
