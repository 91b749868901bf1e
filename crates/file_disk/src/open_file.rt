//! An open file as a file of bytes. Nothing is stated of it: what the system does with it no contract can say.

use crate::byte_file::ByteFile;
use std::fs::File;
use std::marker::Model;
use std::os::unix::fs::FileExt;

/// An open file. What a read or a write of the system leaves over is read or written by another, and an interrupted call is made again.
#[derive(Drop)]
pub struct OpenFile {
    file: File,
    /// How many of its calls were made, up to the greatest number that fits: callers see another value behind each.
    calls: u64,
}

impl Model for OpenFile {
    ghost use Rattle.file_disk.specs.File.{FileView, file_view};

    ghost Value = { FileView };

    // Callers see a sealed view, of which nothing says whether it is honest; only the proofs of this file open the seal.
    ghost view = { λ f. file_view f.calls };
}

impl OpenFile {
    /// This file, of which nothing is known.
    pub fn over(file: File) -> Self {
        OpenFile { file, calls: 0 }
    }
}

impl ByteFile for OpenFile {
    ghost content = { λ f. f.content };

    ghost durable = { λ f. f.durable };

    ghost events = { λ f. f.events };

    ghost failures = { λ f. f.failures };

    ghost tells_length = { λ f. f.tells_length };

    ghost honest = { λ f. f.honest };

    fn len(&self) -> Option<u64> {
        match self.file.metadata() {
            Ok(metadata) => Some(metadata.len()),
            Err(_) => None,
        }
    }

    fn read_at(&mut self, at: u64, into: &mut [u8]) -> bool {
        self.calls = self.calls.saturating_add(1);
        self.file.read_exact_at(into, at).is_ok()
    }

    fn write_at(&mut self, at: u64, from: &[u8]) -> bool {
        self.calls = self.calls.saturating_add(1);
        self.file.write_all_at(from, at).is_ok()
    }

    fn sync(&mut self) -> bool {
        self.calls = self.calls.saturating_add(1);
        self.file.sync_data().is_ok()
    }

    fn set_len(&mut self, bytes: u64) -> bool {
        self.calls = self.calls.saturating_add(1);
        self.file.set_len(bytes).is_ok()
    }
}
