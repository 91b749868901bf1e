//! What happened to a file in memory, and what it had before that, which contracts read and no run keeps.
ghost use Rattle.std.specs.Prelude.{◌≡◌, ◌∷◌, ◌++◌, []};
ghost use Rattle.file_disk.specs.Noted.{noted_in};

use crate::file_event::FileEvent;
use std::mem;
use std::snapshot::Snapshot;

/// What was noted, the last thing first: an event, and the bytes that were there before it. A snapshot has no bytes, so that this takes no
/// memory.
enum Noted {
    /// Nothing.
    Nothing,
    /// This, behind what was noted before.
    Another(Snapshot<Noted>, Snapshot<FileEvent>, Snapshot<Vec<u8>>),
}

impl Drop for Noted {
    fn drop(self) {
        match self {
            Noted::Nothing => {}
            Noted::Another(_before, _event, _had) => {}
        }
    }
}

/// Events in their order, each with the bytes that were there before it.
pub struct Past {
    noted: Snapshot<Noted>,
}

impl Drop for Past {
    fn drop(self) {
        let Self { noted: _noted } = self;
    }
}

impl Past {
    /// Nothing has happened yet.
    pub fn new() -> Self
        ensures { noted_in result ≡ [] }
    {
        Past {
            noted: Snapshot::of(&Noted::Nothing),
        }
    }

    /// Notes this event, and the bytes that are there before it.
    pub fn note(&mut self, event: FileEvent, had: &Vec<u8>)
        ensures { noted_in self.new ≡ noted_in self.old ++ (record { event = event; had = had.now.items }) ∷ [] }
    {
        let before = mem::replace(&mut self.noted, Snapshot::of(&Noted::Nothing));
        let another = Noted::Another(before, Snapshot::of(&event), Snapshot::of(had));
        self.noted = Snapshot::of(&another);
    }
}
