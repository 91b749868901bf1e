//! A disk that notes what it is asked to do.
ghost use Rattle.std.specs.Prelude.{◌≡◌};

use sector_disk::{DiskFault, SectorDisk};
use std::alloc::Global;

/// What changes a disk, or makes it durable.
#[derive(Clone, Copy, PartialEq, Eq, Debug)]
pub enum Call {
    /// This sector is written.
    Write(u64),
    Sync,
    /// It is made this long.
    Extend(u64),
}

/// A disk that notes its writes and syncs, and passes all calls to the disk within.
#[derive(Drop)]
pub struct WatchedDisk<D> {
    inner: D,
    calls: Vec<Call>,
    /// A call found no room in the notes.
    is_cut: bool,
    /// How many calls there were, those that read too.
    count: u64,
}

impl<D> WatchedDisk<D> {
    /// With no notes.
    pub fn new(alloc: Global, inner: D) -> Self {
        WatchedDisk {
            inner,
            calls: Vec::new(alloc),
            is_cut: false,
            count: 0,
        }
    }

    /// How many calls there were.
    pub fn count(&self) -> u64 {
        self.count
    }

    /// The disk within, and the notes; none where they are not whole.
    pub fn into_parts(self) -> (D, Option<Vec<Call>>) {
        let WatchedDisk {
            inner,
            calls,
            is_cut,
            ..
        } = self;
        (inner, if is_cut { None } else { Some(calls) })
    }

    /// Notes a call.
    fn note(&mut self, call: Call)
        ensures { self.new.inner ≡ self.old.inner }
    {
        self.count = self.count.saturating_add(1);
        if self.calls.push(call).is_err() {
            self.is_cut = true;
        }
    }
}

impl<D: SectorDisk> SectorDisk for WatchedDisk<D> {
    ghost disk = { λ w. D.disk w.inner };

    ghost failures = { λ w. D.failures w.inner };

    fn sectors(&self) -> u64 {
        self.inner.sectors()
    }

    fn read(&mut self, at: u64, into: &mut [u8; 512]) -> Result<(), DiskFault> {
        self.count = self.count.saturating_add(1);
        self.inner.read(at, into)
    }

    fn write(&mut self, at: u64, from: &[u8; 512]) -> Result<(), DiskFault> {
        self.note(Call::Write(at));
        self.inner.write(at, from)
    }

    fn sync(&mut self) -> Result<(), DiskFault> {
        self.note(Call::Sync);
        self.inner.sync()
    }

    fn extend(&mut self, sectors: u64) -> Result<(), DiskFault> {
        self.note(Call::Extend(sectors));
        self.inner.extend(sectors)
    }
}
