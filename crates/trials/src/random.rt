//! Random numbers up to an end.
ghost use Rattle.std.specs.Prelude.{◌≤◌};

use rand::{Rng, RngExt};

/// A random number below this one, and 0 where that is 0.
pub fn below<R: Rng>(random: &mut R, end: u64) -> u64
    ensures { result ≤ end }
{
    if end == 0 {
        0
    } else {
        random.random_range(0..end)
    }
}
