//! How far the making of a certificate is.

/// Who is told how far the making of a certificate is.
pub trait Progress {
    /// The moves of so many positions of a list were looked at. It is told of each 1,000.
    fn looked_at(&mut self, count: u64);
}

/// Tells that the moves of one more position were looked at, behind so many: of each 1,000th.
pub fn tell<P: Progress>(progress: &mut P, turn: u64) {
    if turn % 1000 == 999 {
        progress.looked_at(turn.saturating_add(1));
    }
}
