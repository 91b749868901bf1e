//! Tests of positions as bytes and as text, of a game as a source of moves, and of tables in memory, worked to their ends beside a plain
//! solver.
#![tactic(auto)]

#[cfg(test)]
mod ahead_tests;
#[cfg(test)]
mod game_texts;
#[cfg(test)]
mod games;
#[cfg(test)]
mod goal_tests;
#[cfg(test)]
mod move_tests;
#[cfg(test)]
mod pack_tests;
#[cfg(test)]
mod plain;
#[cfg(test)]
mod plain_tests;
#[cfg(test)]
mod source_tests;
