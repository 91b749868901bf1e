//! The standard streams of the program.

use std::fs::File;
use std::io;

/// Three files that take the lowest descriptors which were free, while the program runs. A program may be started with
/// standard input, output or error closed; the next file that is opened would then get its descriptor, and be read as commands or
/// written with replies. Each is the folder `/`, opened to be read: nothing can be written to it, and it has no bytes to
/// read. So whatever is opened after them has a descriptor above 2, and a stream that was closed fails.
#[derive(Drop)]
pub struct Streams {
    first: File,
    second: File,
    third: File,
}

impl Streams {
    /// Takes the descriptors. No file may have been opened before.
    pub fn hold(rt: &HostRuntime) -> io::Result<Streams> {
        Ok(Streams {
            first: File::open(rt, "/")?,
            second: File::open(rt, "/")?,
            third: File::open(rt, "/")?,
        })
    }

    /// Gives them back, once no other file is open.
    pub fn let_go(self) {
        let Streams {
            first: _first,
            second: _second,
            third: _third,
        } = self;
    }
}
