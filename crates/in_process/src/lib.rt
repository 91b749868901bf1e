//! What a program in another language calls, in its own process: the moves of a game, commands and lines on a table whose
//! bytes the caller keeps, and a room of tables that stay open. library/rbgsolve.h says the same to C.
#![tactic(auto)]

mod certificates;
mod faults;
mod given;
mod held;
mod kept;
mod loose;
mod places;
mod room;
mod room_calls;
mod table_bytes;
mod table_lines;
mod texts;
