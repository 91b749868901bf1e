//! Game texts for the tests: those of `games/`, and small rules on one vertex.

/// The game that forks: a win that is found late by number is near by distance.
pub const FORK: &str = "#players = white(1), black(1)
#pieces = e
#variables = s(7)
#board = v[e]{}
#rules =
    [$white=1] ->white
    (
        ({$ s==0}([$s=1]+[$s=2]+[$s=3]) + {$ s==4}[$s=1] + {$ s==5}([$s=6]+[$s=7])) ->black
        ({$ s==2}[$s=4] + {$ s==3}[$s=5] + {$ s==6}[$s=4]) ->white
    )*
";

/// Nim with three heaps.
pub const NIM: &str = "#players = first(1), second(1)
#pieces = e
#variables = small(1), middle(2), large(3)
#board = table[e]{}
#rules =
    [$ small = 1, middle = 2, large = 3] ->first
    (
        ( [$ small = small-1] + [$ middle = middle-1]([$ middle = middle-1])* + [$ large = large-1]([$ large = large-1])* )
        [$ first = 1, second = 0] ->second
        ( [$ small = small-1] + [$ middle = middle-1]([$ middle = middle-1])* + [$ large = large-1]([$ large = large-1])* )
        [$ first = 0, second = 1] ->first
    )*
";

/// Three pawns a side.
pub const HEXAPAWN: &str = "#players = white(1), black(1)
#pieces = e, w, b
#board =
    a1[w]{right: b1, up: a2, next: b1, home: a1}
    b1[w]{left: a1, right: c1, up: b2, next: c1, home: a1}
    c1[w]{left: b1, up: c2, next: a2, home: a1}
    a2[e]{right: b2, up: a3, down: a1, next: b2, home: a1}
    b2[e]{left: a2, right: c2, up: b3, down: b1, next: c2, home: a1}
    c2[e]{left: b2, up: c3, down: c1, next: a3, home: a1}
    a3[b]{right: b3, down: a2, next: b3, home: a1}
    b3[b]{left: a3, right: c3, down: b2, next: c3, home: a1}
    c3[b]{left: b3, down: c2, home: a1}
#rules =
    ->white
    (
        {! (next)* {b} {! down}}
        (next)* {w} [e] up ({e} + (left + right) {b}) [w] home
        [$ white = 1, black = 0] ->black
        {! (next)* {w} {! up}}
        (next)* {b} [e] down ({e} + (left + right) {w}) [b] home
        [$ white = 0, black = 1] ->white
    )*
";

/// The variables beside the players and the rules of games on one vertex with one piece.
pub const SMALL: [(&str, &str); 24] = [
    // ended at once, with nobody and with each player ahead
    ("", "->white"),
    ("", "[$white=1] ->white"),
    ("", "[$black=1] ->white"),
    ("", "[$white=1, black=1] ->white ->black"),
    ("", "->white ->black ->white"),
    // cycles, and a position that is its own successor
    ("", "->white (->black ->white)*"),
    ("", "->white (->white)*"),
    (
        "n(1)",
        "->white ([$n=n] ->white + [$white=1] ->white {} ->white)*",
    ),
    // one who has a choice, and one who has none
    ("", "->white ([$white=1] ->black + [$black=1] ->black)"),
    (
        "",
        "->white ->black ([$white=1] ->white + [$black=1] ->white)",
    ),
    ("", "->white [$black=1] ->black"),
    // the keeper in the middle and at the end
    ("", "->white [$white=1] ->> {} ->black"),
    ("", "->white ->> [$white=1] ->black"),
    ("", "->white ->> ->> [$black=1] ->white"),
    (
        "n(3)",
        "->white (({$ n<3}[$n=n+1] + {$ n==3}[$white=1]) ->> {$ white==0} ->white)*",
    ),
    // heaps, by the rule that the last to take wins and that he loses
    (
        "n(5)",
        "[$n=5] ->white ([$n=n-1][$white=1][$black=0] ->black [$n=n-1][$black=1][$white=0] ->white)*",
    ),
    (
        "n(9)",
        "[$n=9] ->white (([$n=n-1]+[$n=n-2]+[$n=n-3])[$white=1, black=0] ->black ([$n=n-1]+[$n=n-2]+[$n=n-3])[$black=1, white=0] ->white)*",
    ),
    (
        "n(6)",
        "[$n=6] ->white (([$n=n-1]+[$n=n-2])[$black=1][$white=0] ->black ([$n=n-1]+[$n=n-2])[$white=1][$black=0] ->white)*",
    ),
    (
        "n(2), m(2)",
        "->white (([$n=n+1]+[$m=m+1]) ->black ([$n=n+1]+[$m=m+1]) ->white)*",
    ),
    (
        "n(2), m(2)",
        "->white (([$n=n+1]+[$m=m+1])[$white=1][$black=0] ->black ([$n=n+1]+[$m=m+1])[$black=1][$white=0] ->white)*",
    ),
    // races, and a tug in which the other side can hold a draw
    (
        "n(3)",
        "->white (({$ n<3}[$n=n+1] + {$ n==3}[$white=1]) ->black {$ white==0} ->white)*",
    ),
    (
        "n(3)",
        "->white (({$ n<3}[$n=n+1] + {$ n>0}[$n=n-1] + {$ n==3}[$white=1]) ->black {$ white==0} ->white)*",
    ),
    (
        "n(6)",
        "[$n=3] ->white (({$ n<5}[$n=n+2] + {$ n>=5}[$white=1]) ->black {$ white==0} {$ n>0}[$n=n-1] ->white)*",
    ),
    (
        "n(4)",
        "[$n=2] ->white (({$ n<4}[$n=n+1] + {$ n==4}[$white=1]) ->black {$ white==0} ({$ n>0}[$n=n-1] + {$ n<2}[$n=n]) ->white)*",
    ),
];
