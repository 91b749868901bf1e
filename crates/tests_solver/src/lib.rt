//! Tests of the solver, of tables that come from an earlier layout, of a session and of the command line, on disks in memory.
#![tactic(auto)]

#[cfg(test)]
mod action_tests;
#[cfg(test)]
mod call_tests;
#[cfg(test)]
mod deeds;
#[cfg(test)]
mod failing_tests;
#[cfg(test)]
mod fault_tests;
#[cfg(test)]
mod files;
#[cfg(test)]
mod grow_tests;
#[cfg(test)]
mod listing_tests;
#[cfg(test)]
mod look_tests;
#[cfg(test)]
mod moves_tests;
#[cfg(test)]
mod moving_tests;
#[cfg(test)]
mod named_disk;
#[cfg(test)]
mod run_tests;
#[cfg(test)]
mod session_grow_tests;
#[cfg(test)]
mod stop_tests;
#[cfg(test)]
mod witness_tests;
