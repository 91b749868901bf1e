//! What holds of every chain: each is a law, which proofs cite by a call, or by the lemma of the same name in specs/.
ghost use Rattle.std.specs.Prelude.{◌≡◌, ◌*◌, ◌≤◌, ℕ, List, length, Contains};
ghost use Rattle.page_store.specs.declared.marks.Mark.TheVariants.{Committed, Fresh};
ghost use Rattle.page_store.specs.Marks.{mark};
ghost use Rattle.page_store.specs.Spelled.{SpelledBy, Stands, IsPrepared};
ghost use Rattle.page_store.specs.Store.{Store, reads};
ghost use Rattle.page_chain.specs.Chain.{IsChain};
ghost use Rattle.page_chain.specs.declared.page.TheConstants.{PAYLOAD};

/// A chain rests on its own pages alone.
pub fn a_chain_rests_on_its_pages()
    ensures { (capacity first : ℕ) (pages content : List ℕ) (bytes : ℕ → List ℕ) → IsChain capacity first pages content bytes
        → SpelledBy (λ p. Contains pages p) bytes (IsChain capacity first pages content) }
{}

/// From one page on there is one chain at most, and for each length it has one content.
pub fn a_chain_has_one_content()
    ensures { (capacity first : ℕ) (pages others content other : List ℕ) (bytes : ℕ → List ℕ)
        → IsChain capacity first pages content bytes → IsChain capacity first others other bytes
        → length content ≡ length other → (pages ≡ others) × (content ≡ other) }
{}

/// A chain below one capacity is below each that is greater.
pub fn a_chain_fits_more()
    ensures { (capacity more first : ℕ) (pages content : List ℕ) (bytes : ℕ → List ℕ) → capacity ≤ more
        → IsChain capacity first pages content bytes → IsChain more first pages content bytes }
{}

/// A chain has no more content than all pages below its capacity hold.
pub fn a_chain_is_not_longer()
    ensures { (capacity first : ℕ) (pages content : List ℕ) (bytes : ℕ → List ℕ) → IsChain capacity first pages content bytes
        → length content ≤ PAYLOAD * capacity }
{}

/// A chain on pages that were handed out is prepared for the next commit.
pub fn a_chain_is_prepared()
    ensures { (capacity first : ℕ) (pages content : List ℕ) (store : Store) → IsChain capacity first pages content (reads store)
        → ((p : ℕ) → Contains pages p → mark store.marks p ≡ Fresh)
        → IsPrepared (λ p. Contains pages p) (IsChain capacity first pages content) store }
{}

/// A chain on pages that are marked is one that the committed root may need.
pub fn a_chain_stands()
    ensures { (capacity first : ℕ) (pages content : List ℕ) (store : Store) → capacity ≤ length store.marks
        → IsChain capacity first pages content (reads store)
        → ((p : ℕ) → Contains pages p → mark store.marks p ≡ Committed)
        → Stands (λ p. Contains pages p) (IsChain capacity first pages content) store }
{}
