//! What is kept of a game: positions by number, records, edges, and the settled order.
ghost use Rattle.std.specs.Prelude.{◌≡◌, ◌↔◌, ◌+◌, ◌*◌, ◌^◌, ◌<◌, ◌≤◌, ℕ, List, IfOk, OnOk, IfErr, IfSome, IfNone, slice_get, Some};
ghost use Rattle.retrograde.specs.declared.records.Counts.{Counts};
ghost use Rattle.retrograde.specs.Stored.{Stored, HasRecord};
ghost use Rattle.retrograde.specs.Changes.{counts_of, with_position, with_record, with_edge, with_settled};
ghost use Rattle.retrograde.specs.Edges.{IsAfter, IsNextEdge, HasNoMoreEdges};
ghost use Rattle.table.specs.Faults.{NeedsNoPage};
ghost use Rattle.table.specs.Frames.{IsRead, IsWritten};
ghost use Rattle.table.specs.declared.fault.TableFault.{TableFault};
ghost use Rattle.table.specs.declared.fault.TableFault.TheVariants.{OutOfMemory, TableFull};
ghost use Rattle.table.specs.declared.limits.TheConstants.{PAGES_PER_ENTRY};

use crate::fault::TableFault;
use position_pack::Packed;
use retrograde::{Counts, Record};

/// The table of one game. A call that reads leaves it as it was, also where it gives no answer. A call that
/// writes changes one part of what is stored; after an error of such a call nothing is said of it any more.
///
/// What a call says of the stored table it says of an honest one. What it asks, and what it says of
/// how many positions are known and of the range of a number, holds of any: so no device that lies
/// can lead a caller out of range, or round for ever.
///
/// What is left of a device under it is the table's own matter, and so is the cause of a fault: `stays`, `goes_on` and
/// `fails` say it, of honest tables and of others, and a caller of many calls hands them on by the laws at the end.
pub trait Table {
    /// What is stored.
    ghost stored: { Self → Stored (List ℕ) };

    /// What is read of it is what is stored: a device under it, if there is one, keeps to its word.
    ghost is_honest: { Self → Type 0 };

    /// How many positions are known, expanded, settled and processed, as it counts them.
    ghost counted: { Self → Counts };

    /// How many pages are free for what is written: of no matter where a table takes none.
    ghost free: { Self → ℕ };

    /// What calls that only read leave of the first table, answered or not.
    ghost stays: { Self → Self → Type 0 };

    /// What calls that are answered leave of it.
    ghost goes_on: { Self → Self → Type 0 };

    /// What is left of it where then a call gives no answer, and the cause of its fault.
    ghost fails: { Self → Self → TableFault → Type 0 };

    /// How many positions are known, expanded, settled and processed.
    fn counts(&self) -> Counts
        ensures { result ≡ counted self.now };

    /// The number of a position, if it is known.
    fn number_of(&mut self, packed: &Packed) -> Result<Option<u32>, TableFault>
        ensures found { is_honest self.old → IfOk result
            (λ r. IfSome r (λ i. slice_get (stored self.old).positions i ≡ Some packed.now.items)) }
        ensures unknown { is_honest self.old → IfOk result
            (λ r. IfNone r ((i : ℕ) → slice_get (stored self.old).positions i ≡ Some packed.now.items → ⊥)) }
        ensures within { IfOk result (λ r. IfSome r (λ i. i < (counted self.old).known)) }
        ensures read { IsRead stored is_honest counted stays self.old self.new }
        ensures room { IfErr result NeedsNoPage }
        ensures fault { IfErr result (fails self.old self.new) };

    /// The position with a number.
    fn packed(&mut self, number: u32) -> Result<Packed, TableFault>
        requires { number < (counted self.old).known }
        ensures position { is_honest self.old → IfOk result (λ p. slice_get (stored self.old).positions number ≡ Some p.items) }
        ensures read { IsRead stored is_honest counted stays self.old self.new }
        ensures room { IfErr result NeedsNoPage }
        ensures fault { IfErr result (fails self.old self.new) };

    /// The record of a number.
    fn record(&mut self, number: u32) -> Result<Record, TableFault>
        requires { number < (counted self.old).known }
        ensures record { is_honest self.old → IfOk result (λ r. HasRecord (stored self.old) number r) }
        ensures read { IsRead stored is_honest counted stays self.old self.new }
        ensures room { IfErr result NeedsNoPage }
        ensures fault { IfErr result (fails self.old self.new) };

    /// Adds a position that was not known, and answers its number.
    fn add(&mut self, packed: &Packed) -> Result<u32, TableFault>
        requires unknown { is_honest self.old → (i : ℕ) → slice_get (stored self.old).positions i ≡ Some packed.now.items → ⊥ }
        requires room { (counted self.old).known < 2 ^ 24 }
        ensures number { IfOk result (λ i. i ≡ (counted self.old).known) }
        ensures added { is_honest self.old → OnOk result (stored self.new ≡ with_position (stored self.old) packed.now.items) }
        ensures honest { OnOk result (is_honest self.old ↔ is_honest self.new) }
        ensures known { OnOk result ((counted self.new).known ≡ (counted self.old).known + 1) }
        ensures ahead { OnOk result (goes_on self.old self.new) }
        ensures fault { IfErr result (fails self.old self.new) }
        ensures takes { free self.old ≤ free self.new + PAGES_PER_ENTRY * 2 };

    /// Writes the record of a number.
    fn set_record(&mut self, number: u32, kept: Record) -> Result<(), TableFault>
        requires { number < (counted self.old).known }
        ensures set { is_honest self.old → OnOk result (stored self.new ≡ with_record (stored self.old) number kept) }
        ensures wrote { OnOk result (IsWritten is_honest counted goes_on self.old self.new) }
        ensures fault { IfErr result (fails self.old self.new) }
        ensures takes { free self.old ≤ free self.new + PAGES_PER_ENTRY };

    /// Adds an edge, which may be there already.
    fn add_edge(&mut self, successor: u32, predecessor: u32) -> Result<(), TableFault>
        requires successor { successor < (counted self.old).known }
        requires predecessor { predecessor < (counted self.old).known }
        ensures added { is_honest self.old → OnOk result (stored self.new ≡ with_edge (stored self.old) successor predecessor) }
        ensures counts { OnOk result (counted self.new ≡ counted self.old) }
        ensures wrote { OnOk result (IsWritten is_honest counted goes_on self.old self.new) }
        ensures fault { IfErr result (fails self.old self.new) }
        ensures takes { free self.old ≤ free self.new + PAGES_PER_ENTRY };

    /// The least predecessor, or the least one after the number given.
    fn next_edge(&mut self, successor: u32, after: Option<u32>) -> Result<Option<u32>, TableFault>
        ensures next { is_honest self.old → IfOk result (λ r. IfSome r (IsNextEdge (stored self.old) successor after)) }
        ensures none { is_honest self.old → IfOk result (λ r. IfNone r (HasNoMoreEdges (stored self.old) successor after)) }
        ensures within { IfOk result (λ r. IfSome r (λ p. p < (counted self.old).known)) }
        ensures later { IfOk result (λ r. IfSome r (IsAfter after)) }
        ensures read { IsRead stored is_honest counted stays self.old self.new }
        ensures room { IfErr result NeedsNoPage }
        ensures fault { IfErr result (fails self.old self.new) };

    /// Puts a number after the settled order.
    fn push_settled(&mut self, number: u32) -> Result<(), TableFault>
        requires { (counted self.old).settled < (counted self.old).known }
        ensures pushed { is_honest self.old → OnOk result (stored self.new ≡ with_settled (stored self.old) number) }
        ensures wrote { OnOk result (IsWritten is_honest counted goes_on self.old self.new) }
        ensures fault { IfErr result (fails self.old self.new) }
        ensures takes { free self.old ≤ free self.new + PAGES_PER_ENTRY };

    /// The number at a place of the settled order.
    fn settled_at(&mut self, place: u32) -> Result<u32, TableFault>
        requires { place < (counted self.old).settled }
        ensures number { is_honest self.old → IfOk result (λ i. slice_get (stored self.old).order place ≡ Some i) }
        ensures read { IsRead stored is_honest counted stays self.old self.new }
        ensures room { IfErr result NeedsNoPage }
        ensures fault { IfErr result (fails self.old self.new) };

    /// An honest table counts what is stored.
    ghost counts_are: { (t : Self) → is_honest t → counted t ≡ counts_of (stored t) };

    /// Before any call nothing has changed.
    ghost stays_here: { (t : Self) → stays t t };

    /// To stay takes no page.
    ghost stays_free: { (a b : Self) → stays a b → free b ≡ free a };

    /// That no page is free is told where none is.
    ghost full_free: { (a b : Self) → fails a b TableFull → free b ≡ 0 };

    /// One call that reads after another.
    ghost stays_then: { (a b c : Self) → stays a b → stays b c → stays a c };

    /// To stay is to go on.
    ghost stays_goes_on: { (a b : Self) → stays a b → goes_on a b };

    /// One call that is answered after another.
    ghost goes_on_then: { (a b c : Self) → goes_on a b → goes_on b c → goes_on a c };

    /// A call that gives no answer, after others that did.
    ghost fails_since: { (a b c : Self) (fault : TableFault) → goes_on a b → fails b c fault → fails a c fault };

    /// Want of memory is a cause of its own, also where a caller finds it.
    ghost memory_fails: { (a b : Self) → goes_on a b → fails a b OutOfMemory };
}
