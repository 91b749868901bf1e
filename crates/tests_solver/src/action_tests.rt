//! The numbered actions of games, as they are printed.

use crate::call_tests::expect_said;
use session::actions::actions_to;
use std::alloc::Global;
use std::test::Fail;
use test_aids::TAKE;

/// A failure if something else is printed of the actions of this text than these lines, or the status is another.
fn expect_actions(alloc: Global, text: &str, status: u8, lines: &str) -> Result<(), Fail> {
    let mut out = Vec::new(alloc);
    let found = actions_to(alloc, text.as_bytes(), &mut out);
    expect_said(&(found, out), status, lines, 0)
}

const OF_TAKE: &str = concat!(
    "1 2:12 heap=3\n",
    "2 3:5 ->white\n",
    "3 3:16 heap=heap-1\n",
    "4 3:31 heap=heap-2\n",
    "5 3:47 white=1\n",
    "6 3:57 black=0\n",
    "7 4:5 ->black\n",
    "8 4:16 heap=heap-1\n",
    "9 4:31 heap=heap-2\n",
    "10 4:47 black=1\n",
    "11 4:57 white=0\n",
);

#[test]
fn the_actions_of_a_game_are_printed(rt: HostRuntime) -> Result<(), Fail> {
    expect_actions(rt.alloc(), TAKE, 0, OF_TAKE)
}

/// A game with each kind of action, the sections of the board and the pieces after its rules.
const EACH_KIND: &str = concat!(
    "#players = white(9), black(9) #variables = x(3)\n",
    "#rules = right* ({e, f} + {}) [ f ] [$ x = 1,\n",
    "    white = (x + 1) * 2] {? right {! {$ x < 2} + [e]} } // {e} is no action here\n",
    "    ->> ->\r\n",
    "    white {$ x\t== 1}\n",
    "#board = a[e]{right: b}, b[e]{} #pieces = e, f\n",
);

const OF_EACH_KIND: &str = concat!(
    "1 2:10 right\n",
    "2 2:18 {e, f}\n",
    "3 2:27 {}\n",
    "4 2:31 [ f ]\n",
    "5 2:40 x = 1\n",
    "6 3:5 white = (x + 1) * 2\n",
    "7 3:26 {? right {! {$ x < 2} + [e]} }\n",
    "8 4:5 ->>\n",
    "9 4:9 -> white\n",
    "10 5:11 {$ x\t== 1}\n",
);

#[test]
fn each_kind_of_action_is_printed(rt: HostRuntime) -> Result<(), Fail> {
    expect_actions(rt.alloc(), EACH_KIND, 0, OF_EACH_KIND)
}

#[test]
fn a_text_that_is_no_game_has_no_actions(rt: HostRuntime) -> Result<(), Fail> {
    expect_actions(rt.alloc(), "#rules = right", 1, "refused G2\n")
}
