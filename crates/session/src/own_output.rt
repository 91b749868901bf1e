//! Whether what the program prints goes to the file of the table.

use std::fs::{self, Metadata};
use std::io::IsTerminal;
use std::os::unix::fs::MetadataExt;

/// Where a standard stream goes, as far as the system tells.
#[derive(Clone, Copy, PartialEq, Eq)]
pub enum Output {
    /// To the table.
    Table,
    /// To another file, a pipe or a terminal.
    Elsewhere,
    /// It is no terminal, and nothing else can be told, since neither /proc nor /dev/fd is there.
    Unknown,
}

/// Where standard output and standard error go: to the table, if one of them does.
pub fn output_of(rt: &HostRuntime, table: &Metadata) -> Output {
    let out = output_at(
        rt,
        ["/proc/self/fd/1", "/dev/fd/1"],
        rt.stdout().is_terminal(),
        table,
    );
    let told = output_at(
        rt,
        ["/proc/self/fd/2", "/dev/fd/2"],
        rt.stderr().is_terminal(),
        table,
    );
    match (out, told) {
        (Output::Table, _) | (_, Output::Table) => Output::Table,
        (Output::Unknown, _) | (_, Output::Unknown) => Output::Unknown,
        (Output::Elsewhere, Output::Elsewhere) => Output::Elsewhere,
    }
}

/// Where a stream goes that has one of these names, if it is there.
fn output_at(rt: &HostRuntime, names: [&str; 2], is_terminal: bool, table: &Metadata) -> Output {
    if is_terminal {
        return Output::Elsewhere;
    }
    for name in names {
        if let Ok(stream) = fs::metadata(rt, name) {
            return match is_same_file(&stream, table) {
                true => Output::Table,
                false => Output::Elsewhere,
            };
        }
    }
    Output::Unknown
}

/// Whether two files are one.
pub fn is_same_file(one: &Metadata, other: &Metadata) -> bool {
    one.dev() == other.dev() && one.ino() == other.ino()
}
