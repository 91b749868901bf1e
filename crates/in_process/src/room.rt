//! A room of tables, as the caller holds it.
ghost use Rattle.std.specs.Prelude.{◌≡◌};
ghost use Rattle.in_process.specs.contracts.places.HeldTables.{the_row};
ghost use Rattle.in_process.specs.declared.places.HeldTables.{HeldTables};

use crate::loose::LooseBox;
use crate::places::HeldTables;
use std::alloc::{Allocator, Global};
use std::marker::Model;

/// A room of tables, which the caller holds as one pointer: it owns what is behind it. The pointer is one of bytes, since a caller
/// sees nothing of the tables.
#[repr(C)]
pub struct Room {
    at: *mut u8,
    alloc: Global,
    pub ghost tables: { HeldTables } by { the_row.coded },
}

impl Model for Room {
    ghost use Rattle.std.specs.Box.Ownership.{box_owns};
    ghost use Rattle.in_process.specs.contracts.places.HeldTables.{the_row};

    ghost also_owns = { λ r. box_owns (⟦<Global as Allocator>⟧.dealloc_token r.alloc) the_row r.at r.tables };
}

impl Room {
    /// The room of these tables.
    pub fn of(tables: LooseBox<HeldTables, Global>) -> Room
        ensures { result.tables ≡ tables.value }
    {
        let LooseBox { at, alloc } = tables;
        Room {
            at: at as *mut u8,
            alloc,
        }
    }

    /// Its tables.
    pub fn into_loose(self) -> LooseBox<HeldTables, Global>
        ensures { result.value ≡ self.tables }
    {
        let Room { at, alloc } = self;
        LooseBox {
            at: at as *mut HeldTables,
            alloc,
        }
    }
}
