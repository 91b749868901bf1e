//! The moments at which replies began, which contracts read and no run keeps.
ghost use Rattle.std.specs.Prelude.{◌≡◌, ◌∷◌, ◌++◌, []};
ghost use Rattle.session_lines.specs.Moments.{noted_in};

use std::mem;
use std::snapshot::Snapshot;

/// What was noted, the last thing first: a table as it was, and an output beside it. A snapshot has no bytes, so that this takes no memory.
enum Noted<T, W> {
    /// Nothing.
    Nothing,
    /// This, behind what was noted before.
    Another(Snapshot<Noted<T, W>>, Snapshot<T>, Snapshot<W>),
}

impl<T, W> Drop for Noted<T, W> {
    fn drop(self) {
        match self {
            Noted::Nothing => {}
            Noted::Another(_before, _table, _out) => {}
        }
    }
}

/// The moments that were noted, in their order. They begin with none, and `note` alone puts one behind them: so each is true, since at some
/// time the table and the output were so, and none is taken away.
pub struct Moments<T, W> {
    noted: Snapshot<Noted<T, W>>,
}

impl<T, W> Drop for Moments<T, W> {
    fn drop(self) {
        let Self { noted: _noted } = self;
    }
}

impl<T, W> Moments<T, W> {
    /// None is noted yet.
    pub fn new() -> Self
        ensures { noted_in result ≡ [] }
    {
        Moments {
            noted: Snapshot::of(&Noted::Nothing),
        }
    }

    /// Notes this moment: the table and the output as they are.
    pub fn note(&mut self, table: &T, out: &W)
        ensures { noted_in self.new ≡ noted_in self.old ++ (table.now, out.now) ∷ [] }
    {
        let before = mem::replace(&mut self.noted, Snapshot::of(&Noted::Nothing));
        let moment = Noted::Another(before, Snapshot::of(table), Snapshot::of(out));
        self.noted = Snapshot::of(&moment);
    }
}
