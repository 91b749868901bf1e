//! What a walk tells is kept.
ghost use Rattle.std.specs.Prelude.{◌≡◌, List, map, ⊤};
ghost use Rattle.btree.specs.Page.{Item};
ghost use Rattle.btree.specs.declared.find.entry.Entry.{Entry};

use btree::find::{Entry, copied};
use btree::walk::{Refused, Visitor};
use std::alloc::Global;

/// The entries that were told of.
#[derive(Drop)]
pub struct Seen {
    pub entries: Vec<Entry>,
}

impl Seen {
    /// Nothing is told yet.
    pub fn new(alloc: Global) -> Self {
        Seen {
            entries: Vec::new(alloc),
        }
    }
}

impl Visitor for Seen {
    ghost told = { λ v es. es ≡ map (λ e. (e.key.items, e.value.items)) v.entries.items };

    ghost refuses = { λ _ _ _. ⊤ };

    fn entry(&mut self, key: &[u8], value: &[u8]) -> Result<(), Refused> {
        if key.len() > 256 || value.len() > 256 {
            return Err(Refused);
        }
        let entry = Entry {
            key: copied(key),
            value: copied(value),
        };
        match self.entries.push(entry) {
            Ok(()) => Ok(()),
            Err(_) => Err(Refused),
        }
    }
}
