//! What receives the entries of a map.
ghost use Rattle.std.specs.Prelude.{◌++◌, ◌∷◌, [], List, OnOk, OnErr};
ghost use Rattle.btree.specs.Page.{Item};

/// The visitor refuses an entry. Why, it knows itself.
#[derive(Clone, Copy, Debug, PartialEq, Eq, Drop)]
pub struct Refused;

/// Receives each entry of a map, in the order of the keys.
pub trait Visitor {
    /// It may have received exactly these entries so far, in this order.
    ghost told: { Self → List Item → Type 0 };

    /// Whether it refuses this entry, after it was told of these.
    ghost refuses: { Self → List Item → Item → Type 0 };

    /// The next entry.
    fn entry(&mut self, key: &[u8], value: &[u8]) -> Result<(), Refused>
        ensures told { OnOk result ((es : List Item) → told self.old es → told self.new (es ++ (key.now, value.now) ∷ [])) }
        ensures refused { OnErr result ((es : List Item) → told self.old es → refuses self.new es (key.now, value.now)) };
}
