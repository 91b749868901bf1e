//! A successor among the configurations.
use position_pack::Packed;

/// The bytes of a successor, and the index of its configuration.
#[derive(Drop)]
pub struct Successor {
    pub packed: Packed,
    pub index: usize,
}
