//! What has happened to a disk, which contracts read and no run keeps.
ghost use Rattle.std.specs.Prelude.{◌≡◌, ◌++◌, ◌∷◌, []};
ghost use Rattle.sector_disk.specs.declared.log.Event.TheVariants as event;
ghost use Rattle.byte_disk.specs.Pasts.{events_of};

use std::mem;
use std::snapshot::Snapshot;

/// What has happened to a disk, the last thing first. A snapshot has no bytes, so that one of a past takes no memory,
/// however long it is.
#[derive(Drop)]
pub enum Past {
    /// Nothing: all is synced.
    New,
    /// The sector at this place was written over these bytes.
    Wrote(Snapshot<Past>, u64, Snapshot<[u8; 512]>),
    /// A sync.
    Synced(Snapshot<Past>),
    /// It was made longer; this many sectors were there before.
    Extended(Snapshot<Past>, u64),
}

/// What has happened so far, so that it can be put before what happens next.
fn so_far(past: &mut Snapshot<Past>) -> Snapshot<Past>
    ensures { result.value ≡ past.old.value }
{
    mem::replace(past, Snapshot::of(&Past::New))
}

/// A sector is written over these bytes.
pub fn note_write(past: &mut Snapshot<Past>, at: u64, was: &[u8; 512])
    ensures { events_of past.new.value ≡ events_of past.old.value ++ event.Wrote at was.now ∷ [] }
{
    let before = so_far(past);
    *past = Snapshot::of(&Past::Wrote(before, at, Snapshot::of(was)));
}

/// All is synced.
pub fn note_sync(past: &mut Snapshot<Past>)
    ensures { events_of past.new.value ≡ events_of past.old.value ++ event.Synced ∷ [] }
{
    let before = so_far(past);
    *past = Snapshot::of(&Past::Synced(before));
}

/// It is made longer; this many sectors were there before.
pub fn note_extension(past: &mut Snapshot<Past>, sectors: u64)
    ensures { events_of past.new.value ≡ events_of past.old.value ++ event.Extended sectors ∷ [] }
{
    let before = so_far(past);
    *past = Snapshot::of(&Past::Extended(before, sectors));
}
