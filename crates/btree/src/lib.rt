//! Maps on pages, copy on write. A map is a B-tree: its leaves hold keys with their values, and each inner page the smallest key
//! of each child with the child's page. `page` says what a page holds, `map` what a map is, `find` reads one, `put` puts an
//! entry into it, and `walk` checks its form and tells its entries in order.
#![tactic(auto)]

pub mod find;
pub mod map;
pub mod page;
pub mod put;
pub mod walk;
