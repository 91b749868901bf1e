//! Disks over files that have their size already.

use file_disk::FileDisk;
use std::fs::OpenOptions;

/// The disk over the file of this name.
pub fn disk_over(rt: &HostRuntime, name: &str) -> anyhow::Result<FileDisk> {
    let file = OpenOptions::new().read(true).write(true).open(rt, name)?;
    Ok(FileDisk::new(rt.alloc(), file)?)
}
