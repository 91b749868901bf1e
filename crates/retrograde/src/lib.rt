//! The theory of retrograde analysis: who wins a position in how many moves, what a table of a game
//! stores, when it is right, and why two units of work keep it so.
#![tactic(auto)]

mod graph;
mod laws;
mod records;

pub use graph::GameGraph;
pub use laws::{
    expanding_is_one_unit, expanding_keeps, expanding_keeps_sound, finished_knows_reach,
    finished_leaves_draws, loaded_is_sound, local_values_are_right, moves_by_any_list, one_verdict,
    one_winner, play_goes_on, play_has_its_length, processing_is_one_unit, processing_keeps,
    processing_keeps_sound, right_is_sound, settled_stays, sound_by_edges, sound_is_right,
    stray_edges_fail_where_they_lead, units_add_up, units_lead_to_one_table, values_are_decided,
    values_are_won,
};
pub use records::{Counts, Record, State};
