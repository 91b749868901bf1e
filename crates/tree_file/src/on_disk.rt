//! A store of pages that knows its disk.
ghost use Rattle.std.specs.Prelude.{◌≡◌, ◌≤◌, IfOk, IfErr};
ghost use Rattle.page_store.specs.Causes.{StoreOpenCause};
ghost use Rattle.page_store.specs.Store.{IsOpened, IsRefusedStore};

use page_store::{PageStore, Pages, Refused};
use sector_disk::SectorDisk;
use std::alloc::Global;

/// A store of pages on a disk, which it takes and gives back.
pub trait PagesOnDisk: Pages {
    /// The disk that it is on.
    type Device: SectorDisk;

    /// Finds the root on the disk, which it syncs first. No page is marked; this many of them, 64 at most, are kept in memory once they
    /// were read or written. `Disk`, `NotATable`, or `OutOfMemory`, with the disk.
    fn find(alloc: Global, disk: Self::Device, pages: usize) -> Result<Self, Refused<Self::Device>>
        requires { pages ≤ 64 }
        ensures ok { IfOk result (λ store. IsOpened (Self.Device.disk disk) (Self.Device.failures disk) (Self.store store)) }
        ensures refused { IfErr result (λ back. IsRefusedStore (Self.Device.disk disk) (Self.Device.failures disk)
            (Self.Device.disk back.disk) (Self.Device.failures back.disk)) }
        ensures cause { IfErr result (λ back. StoreOpenCause (Self.Device.disk disk) (Self.Device.failures disk)
            (Self.Device.failures back.disk) back.fault) };

    /// The disk, as it is. It always answers.
    fn give_back(self) -> Self::Device
        ensures disk { Self.Device.disk result ≡ (Self.store self).disk }
        ensures failures { Self.Device.failures result ≡ (Self.store self).failures };
}

impl<D: SectorDisk> PagesOnDisk for PageStore<D> {
    type Device = D;

    fn find(alloc: Global, disk: D, pages: usize) -> Result<Self, Refused<D>> {
        PageStore::open_with_cache(alloc, disk, pages)
    }

    fn give_back(self) -> D {
        self.into_disk()
    }
}
