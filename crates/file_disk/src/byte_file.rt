//! What a file of bytes promises.
ghost use Rattle.std.specs.Prelude.{◌≡◌, ◌+◌, ◌≤◌, ℕ, List, Bool, length, IsTrue, IfSome, IfNone, false};
ghost use Rattle.std.specs.Bool.{OnTrue, OnFalse};
ghost use Rattle.file_disk.specs.declared.file_event.FileEvent.{FileEvent};
ghost use Rattle.file_disk.specs.Bytes.{bytes_at, LeavesOthers, KeepsUpTo, IsResized};
ghost use Rattle.file_disk.specs.Events.{Happened, IsEventNoted, IsNotedOrNothing};
ghost use Rattle.file_disk.specs.Failures.{TellsFailure};

use crate::file_event::FileEvent;

/// A file of bytes, by their place from 0. Each call answers whether it was done. What is said of bytes is promised of an honest file
/// only.
pub trait ByteFile {
    /// What reads give.
    ghost content: { Self → List ℕ };

    /// What reads gave at the last sync that was done, which a stop of the power leaves where nothing was written since.
    ghost durable: { Self → List ℕ };

    /// What happened to it, the oldest first, each thing with what reads gave before it: each write and each change of its length, done or
    /// not, and each sync that was done. A call that was refused before it changed anything may be left out.
    ghost events: { Self → List Happened };

    /// How many of its reads, writes, syncs and changes of its length were not done, a count that ends at 2 ^ 64 - 1.
    ghost failures: { Self → ℕ };

    /// Whether its length can be told.
    ghost tells_length: { Self → Bool };

    /// Whether it keeps these promises.
    ghost honest: { Self → Bool };

    /// How many bytes it has, if that can be told.
    fn len(&self) -> Option<u64>
        ensures is { IfSome result (λ bytes. IsTrue (honest self.now) → bytes ≡ length (content self.now)) }
        ensures none { IsTrue (honest self.now) → IfNone result (tells_length self.now ≡ false) };

    /// Reads the bytes from this place on, as many as asked for.
    fn read_at(&mut self, at: u64, into: &mut [u8]) -> bool
        ensures bytes { IsTrue (honest self.old) → OnTrue result (into.new ≡ bytes_at (content self.old) at (length into.old)) }
        ensures unchanged { IsTrue (honest self.old) → content self.new ≡ content self.old }
        ensures lasts { IsTrue (honest self.old) → durable self.new ≡ durable self.old }
        ensures touched { IsTrue (honest self.old) → events self.new ≡ events self.old }
        ensures counted { IsTrue (honest self.old) → TellsFailure result (failures self.old) (failures self.new) }
        ensures same_honest { honest self.new ≡ honest self.old };

    /// Writes these bytes from this place on, where there are this many already. One that is not done may leave anything there.
    fn write_at(&mut self, at: u64, from: &[u8]) -> bool
        ensures written { IsTrue (honest self.old) → at + length from.now ≤ length (content self.old)
            → OnTrue result (bytes_at (content self.new) at (length from.now) ≡ from.now) }
        ensures others { IsTrue (honest self.old) → at + length from.now ≤ length (content self.old)
            → LeavesOthers at (length from.now) (content self.old) (content self.new) }
        ensures lasts { IsTrue (honest self.old) → durable self.new ≡ durable self.old }
        ensures noted { IsTrue (honest self.old)
            → OnTrue result (IsEventNoted (FileEvent.Wrote at (length from.now)) (content self.old) (events self.old) (events self.new)) }
        ensures tried { IsTrue (honest self.old) → OnFalse result
            (IsNotedOrNothing (FileEvent.Wrote at (length from.now)) (events self.old) (events self.new) (content self.old) (content self.new)) }
        ensures counted { IsTrue (honest self.old) → TellsFailure result (failures self.old) (failures self.new) }
        ensures same_honest { honest self.new ≡ honest self.old };

    /// Makes what reads give durable.
    fn sync(&mut self) -> bool
        ensures all { IsTrue (honest self.old) → OnTrue result (durable self.new ≡ content self.new) }
        ensures unchanged { IsTrue (honest self.old) → content self.new ≡ content self.old }
        ensures noted { IsTrue (honest self.old)
            → OnTrue result (IsEventNoted FileEvent.Synced (content self.old) (events self.old) (events self.new)) }
        ensures tried { IsTrue (honest self.old) → OnFalse result (events self.new ≡ events self.old) }
        ensures counted { IsTrue (honest self.old) → TellsFailure result (failures self.old) (failures self.new) }
        ensures same_honest { honest self.new ≡ honest self.old };

    /// Makes it this many bytes long: bytes at its end are cut off, or zeros are put there.
    fn set_len(&mut self, bytes: u64) -> bool
        ensures resized { IsTrue (honest self.old) → OnTrue result (IsResized bytes (content self.old) (content self.new)) }
        ensures kept { IsTrue (honest self.old) → KeepsUpTo bytes (content self.old) (content self.new) }
        ensures lasts { IsTrue (honest self.old) → durable self.new ≡ durable self.old }
        ensures noted { IsTrue (honest self.old)
            → OnTrue result (IsEventNoted (FileEvent.Resized bytes) (content self.old) (events self.old) (events self.new)) }
        ensures tried { IsTrue (honest self.old) → OnFalse result
            (IsNotedOrNothing (FileEvent.Resized bytes) (events self.old) (events self.new) (content self.old) (content self.new)) }
        ensures counted { IsTrue (honest self.old) → TellsFailure result (failures self.old) (failures self.new) }
        ensures same_honest { honest self.new ≡ honest self.old };
}
