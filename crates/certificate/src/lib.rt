//! A result in a mail: a certificate shows the value of one position without a table, and `check` says whether it does.
#![tactic(auto)]

mod answer;
mod certified;
pub mod claim;
mod fault;
mod going;
mod head;
pub mod laws;
mod limits;
mod lines;
mod lists;
mod manner;
mod ranked;
mod shown;
mod values;
mod whole;

pub use answer::{Answer, check_to};
pub use certified::{Certified, check};
pub use fault::{CertificateFault, Refusal};
pub use head::text_of;
pub use limits::MAX_CERTIFICATE_BYTES;
pub use ranked::Ranked;
