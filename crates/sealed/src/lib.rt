//! A value behind a seal: it is what was sealed, and only a crate that names this one can show it.
#![tactic(auto)]
