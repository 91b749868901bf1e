//! The sectors of a disk, and the numbers in their bytes.

use sector_disk::{MemDisk, SectorDisk};

/// The bytes of a sector; zeros where there is none.
pub fn sector(disk: &mut MemDisk, at: u64) -> anyhow::Result<[u8; 512]> {
    let mut bytes = [0; 512];
    if at < disk.sectors() {
        disk.read(at, &mut bytes)?;
    }
    Ok(bytes)
}

/// The number in the four bytes from here on, the highest first; zero where there are fewer.
pub fn word(bytes: &[u8], at: usize) -> u32 {
    match bytes.get(at..at.saturating_add(4)) {
        Some([first, second, third, fourth]) => {
            u32::from_be_bytes([*first, *second, *third, *fourth])
        }
        _ => 0,
    }
}

/// The sector of the root slot that the gate picks, 2 or 3.
pub fn picked_slot(disk: &mut MemDisk) -> anyhow::Result<u64> {
    let gate = sector(disk, 1)?;
    Ok(2 + u64::from(gate[0] % 2))
}
