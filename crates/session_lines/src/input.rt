//! The lines of a session or of a look.

ghost use Rattle.std.specs.Prelude.{◌≡◌, ◌≤◌, ◌<◌, ◌∷◌, [], ◌++◌, List, ℕ, length, false, IsTrue, OnOk};
ghost use Rattle.session_lines.specs.Asked.{SayWords, Asks, IsBare};
ghost use Rattle.session_lines.specs.lemmas.Words.{IsFirstWord, IsTrimmed, IsSplit, SaysBehind};
ghost use Rattle.session_lines.specs.declared.input.Asked.TheVariants.{Usage};

use line_syntax::numbers::number;
use solver::Units;
use std::alloc::{AllocError, Global};

/// The most bytes that a line has, without what ends it.
pub const MAX_LINE_BYTES: usize = 1_048_576;

/// The bytes of a line so far.
#[derive(Drop)]
pub struct Line {
    pub(crate) bytes: Vec<u8>,
    pub(crate) is_too_long: bool,
}

impl Line {
    /// An empty line.
    pub fn new(alloc: Global) -> Line
        ensures empty { result.bytes.items ≡ [] }
        ensures short { result.is_too_long ≡ false }
    {
        Line {
            bytes: Vec::new(alloc),
            is_too_long: false,
        }
    }

    /// Puts a byte after the line. One byte more than a line may have is kept, since it may belong to its end.
    pub fn push(&mut self, byte: u8) -> Result<(), AllocError>
        ensures room { length self.old.bytes.items ≤ MAX_LINE_BYTES → self.old.is_too_long ≡ false
            → OnOk result ((self.new.bytes.items ≡ self.old.bytes.items ++ byte ∷ []) × (self.new.is_too_long ≡ false)) }
        ensures full { MAX_LINE_BYTES < length self.old.bytes.items
            → IsTrue self.new.is_too_long × (self.new.bytes.items ≡ self.old.bytes.items) }
    {
        if self.bytes.len() > MAX_LINE_BYTES {
            self.is_too_long = true;
            return Ok(());
        }
        self.bytes.push(byte)?;
        Ok(())
    }

    /// Begins the next line.
    pub fn clear(&mut self)
        ensures empty { self.new.bytes.items ≡ [] }
        ensures short { self.new.is_too_long ≡ false }
    {
        self.bytes.clear();
        self.is_too_long = false;
    }

    /// What the line asks for, where LF has ended it: a CR before that belongs to the end.
    pub fn asked(&self) -> Asked<'_>
        ensures long { IsTrue self.now.is_too_long → result ≡ Usage }
        ensures line { self.now.is_too_long ≡ false → (line : List ℕ) × IsBare self.now.bytes.items line × Asks line result }
    {
        if self.is_too_long {
            return Asked::Usage;
        }
        match self.bytes.as_slice() {
            [line @ .., b'\r'] => asked_by(line),
            line => asked_by(line),
        }
    }

    /// What the line asks for, where the input ends with it.
    pub fn asked_last(&self) -> Asked<'_>
        ensures long { IsTrue self.now.is_too_long → result ≡ Usage }
        ensures line { self.now.is_too_long ≡ false → Asks self.now.bytes.items result }
    {
        if self.is_too_long {
            return Asked::Usage;
        }
        asked_by(&self.bytes)
    }
}

/// What a line asks for, of a session or of a look.
#[derive(Clone, Copy, PartialEq, Eq, Debug, Drop)]
pub enum Asked<'a> {
    /// The line has no word.
    Nothing,
    /// This many units of work.
    Work(Units),
    /// How far the table is.
    Status,
    /// How full the table is.
    Pages,
    /// What the table says of positions.
    Question(Question<'a>),
    /// The text of the game.
    Game,
    /// The rows of a table that is kept as it was.
    Listing(ListingLine),
    /// The lines that there are.
    Help,
    /// The end of the session.
    Quit,
    /// The line is no command.
    Usage,
}

/// A question about positions.
#[derive(Clone, Copy, PartialEq, Eq, Debug, Drop)]
pub enum Question<'a> {
    /// The value of the position with this number.
    Value(u32),
    /// The value of the position with this text.
    ValueOf(&'a [u8]),
    /// A best line from the position with this number.
    Line(u32),
    /// The values of this many positions, from the one with this number on.
    List(u32, Units),
    /// The moves of the position with this number.
    Moves(u32),
    /// The text of the position with this number.
    Show(u32),
    /// The number of the position with this text.
    Find(&'a [u8]),
}

/// A line about listings: it acts on the one that was begun last.
#[derive(Clone, Copy, PartialEq, Eq, Debug, Drop)]
pub enum ListingLine {
    /// Begins one of the table of the last commit.
    Begin,
    /// This many of its next rows.
    Next(Units),
    /// Ends it.
    End,
}

/// What a line asks for, without what ends it.
fn asked_by(line: &[u8]) -> Asked<'_>
    ensures { Asks line.now result }
{
    if line.len() > MAX_LINE_BYTES {
        return Asked::Usage;
    }
    let (first, rest) = next_word(line);
    if first.is_empty() {
        return Asked::Nothing;
    }
    if first == b"find".as_slice() {
        return match rest {
            [b' ', text @ ..] => Asked::Question(Question::Find(text)),
            _ => Asked::Usage,
        };
    }
    if first == b"value-of".as_slice() {
        return match rest {
            [b' ', text @ ..] => Asked::Question(Question::ValueOf(text)),
            _ => Asked::Usage,
        };
    }
    words_asked(first, rest)
}

/// What a word asks for with what stands after it.
fn words_asked<'a>(first: &[u8], rest: &[u8]) -> Asked<'a>
    ensures { SaysBehind first.now rest.now result }
{
    let (second, rest) = next_word(rest);
    let (third, rest) = next_word(rest);
    let (fourth, _) = next_word(rest);
    if second.is_empty() {
        word_asked(first)
    } else if third.is_empty() {
        one_asked(first, second)
    } else if fourth.is_empty() {
        two_asked(first, second, third)
    } else {
        Asked::Usage
    }
}

/// What a word asks for that stands alone.
fn word_asked<'a>(word: &[u8]) -> Asked<'a>
    ensures { SayWords (word.now ∷ []) result }
{
    if word == b"status".as_slice() {
        Asked::Status
    } else if word == b"pages".as_slice() {
        Asked::Pages
    } else if word == b"game".as_slice() {
        Asked::Game
    } else if word == b"quit".as_slice() {
        Asked::Quit
    } else if word == b"help".as_slice() {
        Asked::Help
    } else if word == b"begin".as_slice() {
        Asked::Listing(ListingLine::Begin)
    } else if word == b"end".as_slice() {
        Asked::Listing(ListingLine::End)
    } else {
        Asked::Usage
    }
}

/// What a word asks for with a number after it.
fn one_asked<'a>(word: &[u8], number_word: &[u8]) -> Asked<'a>
    ensures { SayWords (word.now ∷ number_word.now ∷ []) result }
{
    let Some(number) = number(number_word) else {
        return Asked::Usage;
    };
    if word == b"work".as_slice() {
        match Units::new(number) {
            Some(units) => Asked::Work(units),
            None => Asked::Usage,
        }
    } else if word == b"next".as_slice() {
        match Units::new(number) {
            Some(units) => Asked::Listing(ListingLine::Next(units)),
            None => Asked::Usage,
        }
    } else if word == b"value".as_slice() {
        Asked::Question(Question::Value(number))
    } else if word == b"line".as_slice() {
        Asked::Question(Question::Line(number))
    } else if word == b"moves".as_slice() {
        Asked::Question(Question::Moves(number))
    } else if word == b"show".as_slice() {
        Asked::Question(Question::Show(number))
    } else {
        Asked::Usage
    }
}

/// What a word asks for with two numbers after it.
fn two_asked<'a>(word: &[u8], from_word: &[u8], count_word: &[u8]) -> Asked<'a>
    ensures { SayWords (word.now ∷ from_word.now ∷ count_word.now ∷ []) result }
{
    let (Some(from), Some(count)) = (number(from_word), number(count_word)) else {
        return Asked::Usage;
    };
    let Some(count) = Units::new(count) else {
        return Asked::Usage;
    };
    if word == b"list".as_slice() {
        Asked::Question(Question::List(from, count))
    } else {
        Asked::Usage
    }
}

/// The first word of a line, and what stands after it; no word is empty.
fn next_word(line: &[u8]) -> (&[u8], &[u8])
    ensures { IsFirstWord line.now result.0.now result.1.now }
{
    split_at_space(trimmed(line))
}

/// The line without the spaces that it begins with.
fn trimmed(line: &[u8]) -> &[u8]
    ensures { IsTrimmed line.now result.now }
{
    for (index, byte) in line.iter().enumerate() {
        if *byte != b' ' {
            return &line[index..];
        }
    }
    &[]
}

/// What stands before the first space, and the rest with that space.
fn split_at_space(line: &[u8]) -> (&[u8], &[u8])
    ensures { IsSplit line.now result.0.now result.1.now }
{
    for (index, byte) in line.iter().enumerate() {
        if *byte == b' ' {
            return line.split_at(index);
        }
    }
    (line, &[])
}
