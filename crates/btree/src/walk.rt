//! A map that is a tree of pages is walked: its form is checked, its pages are marked, and each entry is told in order.

mod below;
mod depth;
mod fault;
mod leaf;
mod map;
mod take;
mod visitor;

pub use fault::WalkFault;
pub use map::walk;
pub use visitor::{Refused, Visitor};
