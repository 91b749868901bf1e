//! A page of a file of which sectors wait.
ghost use Rattle.std.specs.Prelude.{◌≡◌, ◌≢◌, ◌<◌, ℕ, true, false, slice_index_or};
ghost use Rattle.std.specs.Bool.{OnTrue};

/// Which page it is, and which of its eight sectors wait.
#[derive(Clone, Copy, Drop)]
pub struct WaitingPage {
    pub number: u64,
    pub has: [bool; 8],
}

/// This sector waits too. It is set where it stands: to copy all eight for one takes longer than to copy a sector.
pub fn set_sector(has: &mut [bool; 8], sector: usize)
    requires { sector < 8 }
    ensures its { slice_index_or has.new sector false ≡ true }
    ensures others { (s : ℕ) → s ≢ sector → slice_index_or has.new s false ≡ slice_index_or has.old s false }
{
    has[sector] = true;
}

/// Whether all eight sectors wait.
pub fn is_whole(has: [bool; 8]) -> bool
    ensures { OnTrue result ((s : ℕ) → s < 8 → slice_index_or has s false ≡ true) }
{
    has[0] && has[1] && has[2] && has[3] && has[4] && has[5] && has[6] && has[7]
}
