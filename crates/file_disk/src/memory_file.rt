//! A file of bytes in memory.
ghost use Rattle.std.specs.Prelude.{◌≡◌, ◌+◌, ◌≤◌, length, true, false, []};
ghost use Rattle.file_disk.specs.Failures.{TellsFailure};
ghost use Rattle.file_disk.specs.Noted.{noted_in};

use crate::byte_file::ByteFile;
use crate::file_event::FileEvent;
use crate::past::Past;
use crate::put_bytes::put_bytes;
use std::alloc::Global;

/// A file in memory, of which one call can be made to fail.
#[derive(Drop)]
pub struct MemoryFile {
    pub bytes: Vec<u8>,
    /// As they were at the last sync.
    pub synced: Vec<u8>,
    /// What happened to it since it was made.
    pub events: Vec<FileEvent>,
    /// The events of the file so far, each with the bytes before it.
    pub past: Past,
    /// How many of its calls have failed, up to the greatest number that fits.
    pub failures: u64,
    /// The calls before the one that fails, while it is still to come.
    ahead: Option<u64>,
}

impl MemoryFile {
    /// A file with these bytes, of which none is synced.
    pub fn new(alloc: Global, bytes: Vec<u8>) -> Self
        ensures bytes { result.bytes ≡ bytes }
        ensures synced { result.synced.items ≡ [] }
        ensures events { result.events.items ≡ [] }
        ensures past { noted_in result.past ≡ [] }
    {
        MemoryFile {
            bytes,
            synced: Vec::new(alloc),
            events: Vec::new(alloc),
            past: Past::new(),
            failures: 0,
            ahead: None,
        }
    }

    /// The call after this many fails, and is not carried out.
    pub fn fail_after(&mut self, calls: u64)
        ensures bytes { self.new.bytes ≡ self.old.bytes }
        ensures synced { self.new.synced ≡ self.old.synced }
        ensures events { self.new.events ≡ self.old.events }
        ensures past { self.new.past ≡ self.old.past }
    {
        self.ahead = Some(calls);
    }
}

/// A call is not done, which counts.
fn refused(failures: &mut u64) -> bool
    ensures { (result ≡ false) × TellsFailure false failures.old failures.new }
{
    *failures = failures.saturating_add(1);
    false
}

/// Whether it is this call that fails.
fn strikes(ahead: &mut Option<u64>) -> bool {
    match *ahead {
        Some(0) => {
            *ahead = None;
            true
        }
        Some(calls) => {
            *ahead = Some(calls - 1);
            false
        }
        None => false,
    }
}

/// Whether this many bytes from this place on are there.
fn has_part(bytes: &Vec<u8>, at: u64, count: usize) -> bool
    ensures { result ≡ true → at + count ≤ length bytes.now.items }
{
    at <= bytes.len() as u64 && count <= bytes.len() - at as usize
}

impl ByteFile for MemoryFile {
    ghost use Rattle.file_disk.specs.InMemory.{bytes_of, synced_of, events_of};

    ghost content = { bytes_of };

    ghost durable = { synced_of };

    ghost events = { events_of };

    ghost failures = { λ f. f.failures };

    ghost tells_length = { λ f. true };

    ghost honest = { λ f. true };

    fn len(&self) -> Option<u64> {
        Some(self.bytes.len() as u64)
    }

    fn read_at(&mut self, at: u64, into: &mut [u8]) -> bool {
        if strikes(&mut self.ahead) || !has_part(&self.bytes, at, into.len()) {
            return refused(&mut self.failures);
        }
        into.copy_from_slice(&self.bytes[at as usize..at as usize + into.len()]);
        true
    }

    fn write_at(&mut self, at: u64, from: &[u8]) -> bool {
        if strikes(&mut self.ahead) || !has_part(&self.bytes, at, from.len()) {
            return refused(&mut self.failures);
        }
        let event = FileEvent::Wrote(at, from.len());
        match self.events.push(event) {
            Ok(()) => {
                self.past.note(event, &self.bytes);
                put_bytes(&mut self.bytes, at as usize, from);
                true
            }
            Err(_) => refused(&mut self.failures),
        }
    }

    fn sync(&mut self) -> bool {
        if strikes(&mut self.ahead) {
            return refused(&mut self.failures);
        }
        let Ok(synced) = self.bytes.clone() else {
            return refused(&mut self.failures);
        };
        match self.events.push(FileEvent::Synced) {
            Ok(()) => {
                self.past.note(FileEvent::Synced, &self.bytes);
                self.synced = synced;
                true
            }
            Err(_) => refused(&mut self.failures),
        }
    }

    fn set_len(&mut self, bytes: u64) -> bool {
        if strikes(&mut self.ahead) {
            return refused(&mut self.failures);
        }
        let event = FileEvent::Resized(bytes);
        if self.events.push(event).is_err() {
            return refused(&mut self.failures);
        }
        self.past.note(event, &self.bytes);
        match self.bytes.resize(bytes as usize, 0) {
            Ok(()) => true,
            Err(_) => refused(&mut self.failures),
        }
    }
}
