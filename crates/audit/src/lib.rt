//! Whether a table is right: each number is compared with the game and with the numbers beside it.
#![tactic(auto)]

mod arrivals;
mod edges;
mod fault;
mod laws;
mod moves;
mod number;
mod order;
mod sums;
mod values;
mod verdict;
mod whole;

pub use fault::AuditFault;
pub use laws::right_is_so;
pub use verdict::{Reason, Verdict};
pub use whole::audit;
