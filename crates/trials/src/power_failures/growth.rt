//! What is done to a store of pages on a disk: it goes on and grows, while two holds keep what its root named before.

use page_store::{MAX_PAGES, PageFault, PageStore, Pages};
use sector_disk::{MemDisk, SectorDisk};
use std::alloc::Global;

/// Sectors of a store of 16 pages.
const SECTORS: u64 = 128;

/// The page that the first root names.
const FIRST: u32 = 1;

/// A root of this store: how many pages it tells, its one page, and the byte that fills that page.
#[derive(Clone, Copy, PartialEq, Eq, Debug)]
pub struct Said {
    pub pages: u8,
    pub named: u32,
    pub byte: u8,
}

impl Said {
    /// The bytes of a root that says this.
    fn root(self) -> [u8; 512] {
        let mut bytes = [0; 512];
        bytes[0] = self.pages;
        bytes[1] = self.byte;
        bytes[4..8].copy_from_slice(&self.named.to_be_bytes());
        bytes
    }

    /// What these bytes of a root say.
    fn of_root(root: &[u8; 512]) -> Said {
        let [pages, byte, _, _, a, b, c, d, ..] = *root;
        Said {
            pages,
            named: u32::from_be_bytes([a, b, c, d]),
            byte,
        }
    }
}

/// How far it came.
#[derive(Clone, Copy, PartialEq, Eq, Debug)]
pub struct Growth {
    /// This many of its three commits were answered.
    pub done: usize,
    /// Why the next was refused, if one was.
    pub refused: Option<PageFault>,
    /// Where none was, both holds still gave what their roots named.
    pub is_held: bool,
}

/// Pages and bytes that are found before the first commit, after it, and so on.
pub const STANDINGS: [(u8, u8); 4] = [(16, 5), (16, 6), (64, 6), (64, 7)];

/// A disk with a store on it whose root names one page.
pub fn before(alloc: Global) -> anyhow::Result<MemDisk> {
    let mut disk = MemDisk::new(alloc, SECTORS)?;
    let said = Said {
        pages: 16,
        named: FIRST,
        byte: 5,
    };
    root_pair::create(&mut disk, &said.root())?;
    for part in 0..8u64 {
        if 8 * u64::from(FIRST) + part < disk.sectors() {
            disk.write(8 * u64::from(FIRST) + part, &[5; 512])?;
        }
    }
    disk.sync()?;
    Ok(disk)
}

/// Does it to the store on this disk. Answers the disk, and how far it came.
pub fn grown_on<D: SectorDisk + Drop>(alloc: Global, disk: D) -> (D, Growth) {
    match PageStore::open(alloc, disk) {
        Err(refused) => (refused.disk, refused_by(0, refused.fault)),
        Ok(mut store) => {
            let growth = match marked(&mut store, FIRST) {
                Ok(()) => beside_one(&mut store, alloc),
                Err(fault) => refused_by(0, fault),
            };
            (store.into_disk(), growth)
        }
    }
}

/// Ends the opening of a store whose root names this page.
fn marked<P: Pages>(store: &mut P, page: u32) -> Result<(), PageFault> {
    store.mark(page)?;
    store.seal();
    Ok(())
}

fn refused_by(done: usize, fault: PageFault) -> Growth {
    Growth {
        done,
        refused: Some(fault),
        is_held: false,
    }
}

/// With a hold on the first root another page takes the place of the first one; then all else is done.
fn beside_one<P: Pages>(store: &mut P, alloc: Global) -> Growth {
    let Some(hold) = store.hold() else {
        return refused_by(0, PageFault::TableFull);
    };
    let growth = match moved(store, FIRST, 16, 6) {
        Ok(page) => beside_two(store, alloc, page),
        Err(fault) => refused_by(0, fault),
    };
    let is_held = growth.is_held && byte_of(store, FIRST) == Some(5);
    store.let_go(hold);
    Growth { is_held, ..growth }
}

/// With a hold on the second root too the store grows, and another page takes the place of the second one.
fn beside_two<P: Pages>(store: &mut P, alloc: Global, page: u32) -> Growth {
    let Some(hold) = store.hold() else {
        return refused_by(1, PageFault::TableFull);
    };
    let growth = match grown(store, alloc, page) {
        Ok(()) => after_growing(store, page),
        Err(fault) => refused_by(1, fault),
    };
    let is_held = growth.is_held && byte_of(store, page) == Some(6);
    store.let_go(hold);
    Growth { is_held, ..growth }
}

/// Another page takes the place of the second one in the store that has grown.
fn after_growing<P: Pages>(store: &mut P, page: u32) -> Growth {
    match moved(store, page, 64, 7) {
        Ok(_) => Growth {
            done: 3,
            refused: None,
            is_held: true,
        },
        Err(fault) => refused_by(2, fault),
    }
}

/// Gives the store 64 pages, by a root that names this page.
fn grown<P: Pages>(store: &mut P, alloc: Global, page: u32) -> Result<(), PageFault> {
    let pages = store.capacity();
    if pages == 0 || pages >= 64 || 64 > MAX_PAGES {
        return Err(PageFault::Damaged);
    }
    let said = Said {
        pages: 64,
        named: page,
        byte: 6,
    };
    store.grow(alloc, 64, &said.root())
}

/// Writes a new page with this byte all over and commits a root that names it in the place of the old one. Answers the new page.
fn moved<P: Pages>(store: &mut P, old: u32, pages: u8, byte: u8) -> Result<u32, PageFault> {
    let named = store.new_page()?;
    store.write_page(named, &[byte; 4096])?;
    if old == 0 || old >= store.capacity() {
        return Err(PageFault::Damaged);
    }
    store.release(old);
    let said = Said { pages, named, byte };
    store.commit(&said.root())?;
    Ok(named)
}

/// The byte that is all over the page; none where its bytes differ, or where it cannot be read.
fn byte_of<P: Pages>(store: &mut P, page: u32) -> Option<u8> {
    let mut bytes = [0; 4096];
    if store.read_page(page, &mut bytes).is_err() {
        return None;
    }
    let first = bytes[0];
    bytes.iter().all(|byte| *byte == first).then_some(first)
}

/// The pages and the byte of the root that is found on this disk, if the page that it names has that byte all over and there is room for
/// this many pages; none else.
pub fn found_on(alloc: Global, disk: MemDisk) -> Option<(u8, u8)> {
    let room = disk.sectors() / 8;
    match PageStore::open(alloc, disk) {
        Err(_) => None,
        Ok(mut store) => {
            let said = Said::of_root(&store.root().bytes);
            let is_whole = room >= u64::from(said.pages)
                && byte_of(&mut store, said.named) == Some(said.byte);
            let _ = store.into_disk();
            is_whole.then_some((said.pages, said.byte))
        }
    }
}
