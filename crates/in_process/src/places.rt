//! The tables of a room by their numbers.
ghost use Rattle.std.specs.Prelude.{◌≡◌, ◌++◌, ◌∷◌, ◌<◌, [], Some, None, length, slice_index_or, slice_set};
ghost use Rattle.std.specs.Prelude.{Box, IfOk, OnErr, IfSome, IfNone};
ghost use Rattle.std.specs.declared.alloc.Global.{Global};
ghost use Rattle.in_process.specs.declared.held.HeldTable.{HeldTable};

use crate::held::HeldTable;
use std::alloc::{AllocError, Global};
use std::mem;

/// Tables by their numbers. The place of one that was given back stays empty, so that no other table gets its number.
#[derive(Drop)]
pub struct HeldTables {
    pub places: Vec<Option<Box<HeldTable>>>,
}

impl HeldTables {
    /// No table.
    pub fn none(alloc: Global) -> Self
        ensures { result.places.items ≡ [] }
    {
        HeldTables {
            places: Vec::new(alloc),
        }
    }

    /// Takes a table in, and gives its number.
    pub fn add(&mut self, alloc: Global, table: HeldTable) -> Result<u64, AllocError>
        ensures number { IfOk result (λ number. number ≡ length self.old.places.items) }
        ensures added { IfOk result (λ number. (boxed : Box HeldTable Global) × (boxed.value ≡ table)
            × (self.new.places.items ≡ self.old.places.items ++ Some boxed ∷ [])) }
        ensures refused { OnErr result (self.new.places.items ≡ self.old.places.items) }
    {
        let number = self.places.len() as u64;
        let boxed = Box::new(alloc, table)?;
        self.places.push(Some(boxed))?;
        Ok(number)
    }

    /// Takes the table of this number out, if it is there.
    pub fn take(&mut self, number: u64) -> Option<Box<HeldTable>>
        ensures there { IfSome result (λ table. slice_index_or self.old.places.items number None ≡ Some table) }
        ensures taken { IfSome result (λ table. self.new.places.items ≡ slice_set self.old.places.items number None) }
        ensures inside { IfSome result (λ table. number < length self.old.places.items) }
        ensures absent { IfNone result (slice_index_or self.old.places.items number None ≡ None) }
        ensures kept { IfNone result (self.new.places.items ≡ self.old.places.items) }
    {
        let place = number as usize;
        if place >= self.places.len() {
            return None;
        }
        mem::replace(&mut self.places[place], None)
    }

    /// Puts a table back to its number.
    pub fn put(&mut self, number: u64, table: Box<HeldTable>)
        requires { number < length self.old.places.items }
        ensures { self.new.places.items ≡ slice_set self.old.places.items number (Some table) }
    {
        self.places[number as usize] = Some(table);
    }
}
