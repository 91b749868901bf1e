//! What the promise of this repository says, seen on one small game: its table is stopped, opened again and worked to the end, and
//! answers what the game is.
#![tactic(auto)]

mod again;
pub mod laws;
mod listed;
mod migrated;
mod one_table;
mod printed;
mod sittings;
mod small_listing;
mod stop;
mod stopping_disk;
mod unanswered;

pub use again::told_again;
pub use listed::rows_beside_work;
pub use migrated::{Stop, value_after_stopped_migrations};
pub use one_table::as_much_on_two;
pub use printed::{printed_as_it_began, printed_beside_work};
pub use small_listing::printed_of_the_small_game;
pub use stop::value_after_a_stop;
pub use unanswered::Unanswered;
