//! A game's table in a file of one layout: its text on a chain of pages, and four trees, of which a command writes what it changes.
//! An opening walks the trees and checks that their entries spell one table.
#![tactic(auto)]

mod check;
mod count;
mod edges;
mod file;
mod fits;
mod forest;
mod kept;
pub mod laws;
mod naming;
mod number;
mod on_disk;
mod one;
mod open;
mod places;
mod renew;
mod version;
mod working;

pub use check::check_entries;
pub use file::TreeFile;
pub use forest::walk_trees;
pub use kept::Kept;
pub use on_disk::PagesOnDisk;
