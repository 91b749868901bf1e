//! An entry is put into a map: the pages from the root down to its leaf are written anew, and a page that is too full
//! becomes two. `put_new` leaves a map alone that has the key.

mod below;
mod entry;
mod in_place;
mod items;
mod map;
mod new_key;
mod place;
mod write;

pub use map::put;
pub use new_key::put_new;
