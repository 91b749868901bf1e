//! A page is edited where it stands in memory.
ghost use Rattle.std.specs.Prelude.{List, ℕ, IfSome};

/// Where a page is to be edited: from one place up to another. What the places count is the edit's own.
#[derive(Clone, Copy, Drop)]
pub struct Span {
    pub from: usize,
    pub to: usize,
}

/// What is to be done to the bytes of a page.
pub trait PageEdit {
    ghost use Rattle.sector_disk.specs.declared.page_edit.Span.{Span};

    /// It can be done here to a page that has these bytes.
    ghost fits: { Self → Span → List ℕ → Type 0 };

    /// What it may make of a page that has the first bytes: one that has the second.
    ghost edits: { Self → List ℕ → List ℕ → Type 0 };

    /// Where the page is to be edited; none where it is not one that it edits.
    fn find(&self, page: &[u8; 4096]) -> Option<Span>
        ensures { IfSome result (λ span. fits self.now span page.now) };

    /// Edits the page there.
    fn apply(&self, page: &mut [u8; 4096], span: Span)
        requires { fits self.now span page.old }
        ensures { edits self.now page.old page.new };
}
