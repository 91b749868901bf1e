//! Lines on a table whose bytes the caller keeps.
ghost use Rattle.session.specs.declared.line_by_line.Lines.TheVariants.{Session, Look};
ghost use Rattle.in_process.specs.Lines.{AreLinesAnswered, OverBytes};

use crate::given::NO_MEMORY;
use crate::table_bytes::give_table;
use byte_disk::ByteDisk;
use game_file::{GameFile, Versions};
use recover::TableFile;
use session::line_by_line::{Lines, lines_over};
use session_lines::moments::Moments;
use std::alloc::Global;
use std::io;

/// Answers these lines on the table, as `rbgsolve session` does.
#[unsafe(no_mangle)]
pub extern "C" fn rbg_session(
    alloc: Global,
    table: &mut [u8],
    lines: &[u8],
    out: &mut [u8],
    count: &mut usize,
) -> u8
    ensures { AreLinesAnswered (OverBytes ⟦<TableFile<ByteDisk> as GameFile>⟧.stores ⟦<TableFile<ByteDisk> as GameFile>⟧.state
        ⟦<TableFile<ByteDisk> as Versions>⟧.is_version ⟦<TableFile<ByteDisk> as Versions>⟧.are_two ⟦<TableFile<ByteDisk> as Versions>⟧.is_used_up
        ⟦<TableFile<ByteDisk> as GameFile>⟧.lasts Session) lines.now table.old table.new out.old out.new count.new result }
{
    answered(alloc, Lines::Session, table, lines, out, count)
}

/// Answers lines that only ask, as `rbgsolve look` does; the table stays as it is.
#[unsafe(no_mangle)]
pub extern "C" fn rbg_look(
    alloc: Global,
    table: &mut [u8],
    lines: &[u8],
    out: &mut [u8],
    count: &mut usize,
) -> u8
    ensures { AreLinesAnswered (OverBytes ⟦<TableFile<ByteDisk> as GameFile>⟧.stores ⟦<TableFile<ByteDisk> as GameFile>⟧.state
        ⟦<TableFile<ByteDisk> as Versions>⟧.is_version ⟦<TableFile<ByteDisk> as Versions>⟧.are_two ⟦<TableFile<ByteDisk> as Versions>⟧.is_used_up
        ⟦<TableFile<ByteDisk> as GameFile>⟧.lasts Look) lines.now table.old table.new out.old out.new count.new result }
{
    answered(alloc, Lines::Look, table, lines, out, count)
}

/// Answers lines on the table.
fn answered(
    alloc: Global,
    manner: Lines,
    table: &mut [u8],
    lines: &[u8],
    out: &mut [u8],
    count: &mut usize,
) -> u8
    ensures { AreLinesAnswered (OverBytes ⟦<TableFile<ByteDisk> as GameFile>⟧.stores ⟦<TableFile<ByteDisk> as GameFile>⟧.state
        ⟦<TableFile<ByteDisk> as Versions>⟧.is_version ⟦<TableFile<ByteDisk> as Versions>⟧.are_two ⟦<TableFile<ByteDisk> as Versions>⟧.is_used_up
        ⟦<TableFile<ByteDisk> as GameFile>⟧.lasts manner) lines.now table.old table.new out.old out.new count.new result }
{
    let Ok(disk) = ByteDisk::from_bytes(alloc, table) else {
        *count = 0;
        return NO_MEMORY;
    };
    let mut text = Vec::new(alloc);
    let mut input = lines;
    let mut moments = Moments::new();
    let (status, disk) = lines_over::<TableFile<ByteDisk>, _, _, _>(
        alloc,
        disk,
        manner,
        &mut input,
        &mut text,
        &mut io::sink(),
        &mut moments,
    );
    give_table(&text, disk.bytes(), status, table, out, count)
}
