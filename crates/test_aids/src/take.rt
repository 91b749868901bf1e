//! The game of takes.

/// Two players take one or two from a heap of three, and who takes the last wins.
pub const TAKE: &str =
    "#players = white(1), black(1)  #pieces = e  #variables = heap(3)  #board = v[e]{}
#rules = [$heap=3] (
    ->white ([$heap=heap-1]+[$heap=heap-2]) [$white=1][$black=0]
    ->black ([$heap=heap-1]+[$heap=heap-2]) [$black=1][$white=0]
)*";
