//! Pages of 4,096 bytes on a table's disk: read, written and handed out, and a root that needs some of them.
#![tactic(auto)]

mod blocks;
mod cache;
mod edits;
mod fault;
mod holds;
pub mod laws;
mod limits;
mod marks;
mod page;
mod pages;
mod room;
mod search;
mod store;

pub use fault::PageFault;
pub use holds::{Hold, HoldPlace, Holders};
pub use limits::{MAX_PAGES, MIN_PAGES};
pub use marks::Mark;
pub use pages::Pages;
pub use store::{MOST_CACHED, PageStore, Refused};
