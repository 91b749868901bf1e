//! What a file shows and has while writes wait (`BufferedFile`), beside a disk in memory.

use crate::scripts::Deed;
use Deed::{Extend, Read, Sectors, Sync, Write};
use FileEvent::{Resized, Synced, Wrote};
use file_disk::{BufferedFile, FileEvent, MemoryFile};
use sector_disk::{MemDisk, SectorDisk};
use std::test::Fail;
use test_aids::expect;

/// How many scripts there are, how many calls each has, and how many sectors the file has at first.
const SCRIPTS: u64 = 48;

const CALLS: u64 = 80;

const SECTORS: u64 = 21;

/// The next of a row of numbers that is the same in each run.
fn next(seed: &mut u64) -> u64 {
    *seed = seed
        .wrapping_mul(6_364_136_223_846_793_005)
        .wrapping_add(1_442_695_040_888_963_407);
    *seed >> 33
}

/// The call that a number picks.
fn deed_of(number: u64) -> Deed {
    let at = number / 16 % 32;
    match number % 16 {
        0..=4 => Read(at),
        5..=11 => Write(at, (number / 1024 % 256) as u8),
        12 => Extend(at),
        13 => Sync,
        _ => Sectors,
    }
}

/// A file of zeros in memory, of which the call after this many fails, with room for two pages that wait.
fn file_of(rt: &HostRuntime, calls: u64) -> Result<BufferedFile<MemoryFile>, Fail> {
    let bytes = vec![in rt.alloc(); 0; 512 * SECTORS as usize]?;
    let mut file = MemoryFile::new(rt.alloc(), bytes);
    file.fail_after(calls);
    Ok(BufferedFile::new(rt.alloc(), file, 2)?)
}

/// Expects that each sector of the file is that of the disk.
fn expect_same(bytes: &[u8], model: &mut MemDisk) -> Result<(), Fail> {
    expect(bytes.len() as u64 / 512, model.sectors(), 0)?;
    for (at, sector) in bytes.chunks(512).enumerate() {
        let mut wanted = [0; 512];
        if at as u64 >= model.sectors() {
            return expect(at, 0, at);
        }
        model.read(at as u64, &mut wanted)?;
        expect(sector == &wanted[..], true, at)?;
    }
    Ok(())
}

/// Makes a call of the file and, where it is done, of the disk, and answers whether it was done.
fn call(
    file: &mut BufferedFile<MemoryFile>,
    model: &mut MemDisk,
    deed: Deed,
) -> Result<bool, Fail> {
    match deed {
        Read(at) if at < file.sectors && at < model.sectors() => read_both(file, model, at),
        Write(at, byte) if at < file.sectors && at < model.sectors() => {
            let done = file.write(at, &[byte; 512]);
            if done {
                model.write(at, &[byte; 512])?;
            }
            Ok(done)
        }
        Sync => {
            let done = file.sync();
            if done {
                expect_same(&file.file.synced, model)?;
            }
            Ok(done)
        }
        Extend(sectors) if sectors >= file.sectors && sectors > model.sectors() => {
            let done = file.extend(sectors);
            if done {
                model.extend(sectors)?;
            }
            Ok(done)
        }
        _ => {
            if file.lost {
                return Ok(false);
            }
            expect(file.sectors, model.sectors(), 0)?;
            Ok(true)
        }
    }
}

/// Reads a sector of both.
fn read_both(
    file: &mut BufferedFile<MemoryFile>,
    model: &mut MemDisk,
    at: u64,
) -> Result<bool, Fail> {
    if at >= file.sectors || at >= model.sectors() {
        return Ok(!file.lost);
    }
    let mut found = [0; 512];
    let mut wanted = [0; 512];
    let done = file.read(at, &mut found);
    model.read(at, &mut wanted)?;
    expect(!done || found == wanted, true, at)?;
    Ok(done)
}

/// A script on a file of which one call fails: at most one call is refused, or each one from a sync or an extension on.
fn run_script(rt: &HostRuntime, script: u64) -> Result<(), Fail> {
    let mut seed = script;
    let mut file = file_of(rt, script)?;
    let mut model = MemDisk::new(rt.alloc(), SECTORS)?;
    let mut refused = false;
    for _ in 0..CALLS {
        let deed = deed_of(next(&mut seed));
        let lost = file.lost;
        let done = call(&mut file, &mut model, deed)?;
        expect(done && lost, false, deed)?;
        if !done && !lost {
            expect(refused, false, deed)?;
            refused = true;
        }
    }
    let lost = file.lost;
    expect(file.sync() || file.sync(), !lost, script)
}

#[test]
fn a_file_with_buffers_is_as_a_disk_in_memory(rt: HostRuntime) -> Result<(), Fail> {
    for script in 0..SCRIPTS {
        run_script(&rt, script)?;
    }
    Ok(())
}

/// Writes a byte all over each of these sectors.
fn write_each(file: &mut BufferedFile<MemoryFile>, sectors: &[u64], byte: u8) -> Result<(), Fail> {
    for at in sectors {
        if *at >= file.sectors {
            return expect(*at, file.sectors, 0);
        }
        expect(file.write(*at, &[byte; 512]), true, *at)?;
    }
    Ok(())
}

/// The first bytes of the first sectors of a file.
fn first_bytes(bytes: &[u8]) -> [u8; 16] {
    let mut first = [0; 16];
    for (at, byte) in first.iter_mut().enumerate() {
        *byte = bytes.get(512 * at).copied().unwrap_or(255);
    }
    first
}

#[test]
fn what_a_refused_flush_leaves_is_written_again(rt: HostRuntime) -> Result<(), Fail> {
    let mut file = file_of(&rt, 1)?;
    write_each(&mut file, &[9, 1, 3], 7)?;
    expect((file.flush(), file.lost), (false, false), 0)?;
    let part = [0, 7, 0, 0, 0, 0, 0, 0, 0, 0, 0, 0, 0, 0, 0, 0];
    expect(first_bytes(&file.file.bytes), part, 0)?;
    expect(file.sync(), true, 1)?;
    let all = [0, 7, 0, 7, 0, 0, 0, 0, 0, 7, 0, 0, 0, 0, 0, 0];
    expect(first_bytes(&file.file.synced), all, 1)?;
    expect(file.file.failures, 1, 1)?;
    let events = [
        Wrote(512, 512),
        Wrote(512, 512),
        Wrote(1536, 512),
        Wrote(4608, 512),
        Synced,
    ];
    expect(file.file.events.as_slice() == &events[..], true, 1)
}

#[test]
fn pages_side_by_side_go_by_one_call_and_a_failed_sync_is_the_last(
    rt: HostRuntime,
) -> Result<(), Fail> {
    let mut file = file_of(&rt, 1)?;
    let sectors = [0, 1, 2, 3, 4, 5, 6, 7, 8, 9, 10, 11, 12, 13, 14, 15];
    write_each(&mut file, &sectors, 7)?;
    expect((file.sync(), file.lost), (false, true), 0)?;
    expect(first_bytes(&file.file.bytes), [7; 16], 0)?;
    expect(
        file.file.events.as_slice() == &[Wrote(0, 8192)][..],
        true,
        0,
    )?;
    let mut bytes = [0; 512];
    let sectors = file.sectors;
    if sectors == 0 {
        return expect(sectors, SECTORS, 1);
    }
    let read = file.read(0, &mut bytes);
    let written = file.write(0, &bytes);
    expect(
        (
            read,
            written,
            file.flush(),
            file.sync(),
            file.extend(sectors),
        ),
        (false, false, false, false, false),
        1,
    )
}

#[test]
fn a_file_that_gets_longer_is_cut_to_its_sectors_first(rt: HostRuntime) -> Result<(), Fail> {
    let bytes = vec![in rt.alloc(); 7; 512 * 3 + 100]?;
    let mut file = BufferedFile::new(rt.alloc(), MemoryFile::new(rt.alloc(), bytes), 2)?;
    if file.sectors != 3 {
        return expect(file.sectors, 3, 0);
    }
    expect(file.extend(5), true, 0)?;
    let events = [Resized(1536), Resized(2560)];
    expect(file.file.events.as_slice() == &events[..], true, 0)
}
