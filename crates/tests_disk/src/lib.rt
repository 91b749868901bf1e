//! Tests of disks, and of their roots, pages and chains.
#![tactic(auto)]

#[cfg(test)]
mod buffer_tests;
#[cfg(test)]
mod cache_tests;
#[cfg(test)]
mod chain_tests;
#[cfg(test)]
mod disks;
#[cfg(test)]
mod file_tests;
#[cfg(test)]
mod hold_tests;
#[cfg(test)]
mod root_tests;
#[cfg(test)]
mod scripts;
#[cfg(test)]
mod sector_tests;
#[cfg(test)]
mod store_tests;
