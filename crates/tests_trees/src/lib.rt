//! Tests of maps that are trees of pages, and of tables on them.
#![tactic(auto)]

#[cfg(test)]
mod asked;
#[cfg(test)]
mod byte_tests;
#[cfg(test)]
mod copy_tests;
#[cfg(test)]
mod count_tests;
#[cfg(test)]
mod depth_tests;
#[cfg(test)]
mod form_tests;
#[cfg(test)]
mod full_tests;
#[cfg(test)]
mod growth_tests;
#[cfg(test)]
mod pages;
#[cfg(test)]
mod seen;
#[cfg(test)]
mod take_tests;
