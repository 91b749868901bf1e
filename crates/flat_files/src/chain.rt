//! A list of bytes on the pages of a disk, from page 1 on.

use byteorder::{BigEndian, ByteOrder};
use page_chain::PAYLOAD;
use sector_disk::{DiskFault, MemDisk, SectorDisk};

/// How many sectors a page has.
const SECTORS: usize = 8;

/// Writes these bytes as a chain: each page begins with the number of the next one, and the last with 0.
pub fn write_chain(disk: &mut MemDisk, bytes: &[u8]) -> Result<(), DiskFault> {
    let mut page = 1_u32;
    for part in bytes.chunks(PAYLOAD) {
        let next = page.saturating_add(1);
        let is_last = page as usize * PAYLOAD >= bytes.len();
        write_page(disk, page, if is_last { 0 } else { next }, part)?;
        page = next;
    }
    Ok(())
}

/// Writes the page of this number, which names the next one and holds this part.
fn write_page(disk: &mut MemDisk, page: u32, next: u32, part: &[u8]) -> Result<(), DiskFault> {
    let mut bytes = [0; 4_096];
    BigEndian::write_u32(&mut bytes, next);
    let long = part.len().min(PAYLOAD);
    bytes[4..4 + long].copy_from_slice(&part[..long]);
    for place in 0..SECTORS {
        let mut sector = [0; 512];
        sector.copy_from_slice(&bytes[512 * place..512 * place + 512]);
        let at = 8 * u64::from(page) + place as u64;
        if at >= disk.sectors() {
            return Err(DiskFault);
        }
        disk.write(at, &sector)?;
    }
    Ok(())
}
