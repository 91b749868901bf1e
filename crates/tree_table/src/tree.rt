//! The four trees of a table.
ghost use Rattle.std.specs.Prelude.{◌≡◌, ◌≤◌};
ghost use Rattle.tree_table.specs.Trees.{key_width, value_width, root_of, with_root};
ghost use Rattle.position_pack.specs.declared.limits.TheConstants.{MAX_PACKED};

use btree::page::Widths;

/// Which of the four trees of a table.
#[derive(Clone, Copy, PartialEq, Eq, Debug, Drop)]
pub enum Tree {
    /// At each position its number.
    Positions,
    /// At each number its position and its record.
    Records,
    /// The edges: at each the number that a move leads to, then the one that it leads from; with no value.
    Edges,
    /// At each place of the settled order the number there.
    Order,
}

/// The root page of each tree, 0 where it is empty.
#[derive(Clone, Copy, PartialEq, Eq, Debug, Drop)]
pub struct Roots {
    pub positions: u32,
    pub records: u32,
    pub edges: u32,
    pub order: u32,
}

impl Roots {
    /// The root page of this tree.
    pub fn root(self, tree: Tree) -> u32
        ensures { result ≡ root_of self tree }
    {
        match tree {
            Tree::Positions => self.positions,
            Tree::Records => self.records,
            Tree::Edges => self.edges,
            Tree::Order => self.order,
        }
    }

    /// With this root page of this tree.
    pub fn with(self, tree: Tree, root: u32) -> Roots
        ensures { result ≡ with_root self tree root }
    {
        let mut roots = self;
        match tree {
            Tree::Positions => roots.positions = root,
            Tree::Records => roots.records = root,
            Tree::Edges => roots.edges = root,
            Tree::Order => roots.order = root,
        }
        roots
    }
}

/// How long keys and values of this tree are, where a position has this many bytes.
pub fn widths_of(packed: u32, tree: Tree) -> Widths
    requires some { 1 ≤ packed }
    requires few { packed ≤ MAX_PACKED }
    ensures keys { result.key ≡ key_width packed tree }
    ensures values { result.value ≡ value_width packed tree }
{
    let packed = packed as usize;
    match tree {
        Tree::Positions => Widths {
            key: packed,
            value: 4,
        },
        Tree::Records => Widths {
            key: 4,
            value: packed + 16,
        },
        Tree::Edges => Widths { key: 8, value: 0 },
        Tree::Order => Widths { key: 4, value: 4 },
    }
}
