//! Bytes that are handed to the caller.
ghost use Rattle.std.specs.Prelude.{◌≡◌, ◌<◌};
ghost use Rattle.in_process.specs.Given.{IsGiven, over};

/// The status where a goal is none.
pub const NO_GOAL: u8 = 2;

/// The status where memory ran out.
pub const NO_MEMORY: u8 = 5;

/// The status where the text is longer than the bytes that the caller has for it: nothing was done.
pub const TOO_LONG: u8 = 6;

/// The status where no table of the room has this number.
pub const NOT_OPEN: u8 = 7;

/// Puts these bytes over the first of those, as many as there is room for.
pub fn put_over(bytes: &[u8], into: &mut [u8])
    ensures { into.new ≡ over bytes.now into.old }
{
    let count = bytes.len().min(into.len());
    into[..count].copy_from_slice(&bytes[..count]);
}

/// Puts a text into the caller's bytes, if it fits, and tells its length.
pub fn give_text(text: &[u8], out: &mut [u8], count: &mut usize)
    ensures { IsGiven text.now out.old out.new count.new }
{
    *count = text.len();
    if text.len() <= out.len() {
        put_over(text, out);
    }
}
