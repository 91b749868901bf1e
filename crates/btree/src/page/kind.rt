//! What a page of a tree is, and how much room it has.
ghost use Rattle.std.specs.Prelude.{◌≡◌};
ghost use Rattle.btree.specs.Page.{behind_of, least_of};

use crate::page::widths::Widths;

/// How many bytes of a page tell its kind and the number of its items.
pub const HEAD: usize = 4;

/// How many bytes of items a page has room for, after these.
pub const ROOM: usize = 4_092;

/// What a page is in its tree.
#[derive(Clone, Copy, PartialEq, Eq, Debug, Drop)]
pub enum Kind {
    /// It holds entries.
    Leaf,
    /// It leads to other pages.
    Inner,
}

/// How many bytes the page of a child takes.
const CHILD: usize = 4;

/// How many bytes stand after a key: a value, or the page of a child.
pub fn behind_of(widths: Widths, kind: Kind) -> usize
    ensures { result ≡ behind_of widths kind }
{
    match kind {
        Kind::Leaf => widths.value,
        Kind::Inner => CHILD,
    }
}

/// How many items a page has at least.
pub fn least_of(kind: Kind) -> usize
    ensures { result ≡ least_of kind }
{
    match kind {
        Kind::Leaf => 1,
        Kind::Inner => 2,
    }
}
