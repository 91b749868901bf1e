//! The gate: the low bit of its first byte picks one of the two root slots.
ghost use Rattle.std.specs.Prelude.{◌≡◌, ◌≢◌, ◌<◌, OnOk, IfOk, IfErr, IsTrue};
ghost use Rattle.sector_disk.specs.Disk.{size, sector, AllSynced, HasCause, IsCounted};
ghost use Rattle.root_pair.specs.lemmas.Frames.{IsLookedAt, IsWrittenElsewhere};
ghost use Rattle.root_pair.specs.Root.{slot_by, spare_by, turned};

use crate::RootFault;
use crate::steps::{fetch, put};
use sector_disk::{DiskFault, SectorDisk};

/// The sector of the gate.
pub const GATE: u64 = 1;

/// The sector of the slot that a gate picks: 2 or 3.
fn picked_slot(gate: &[u8; 512]) -> u64
    ensures { result ≡ slot_by gate.now }
{
    2 + u64::from(gate[0] % 2)
}

/// The sector of the slot that a gate does not pick: 3 or 2.
fn spare_slot(gate: &[u8; 512]) -> u64
    ensures { result ≡ spare_by gate.now }
{
    3 - u64::from(gate[0] % 2)
}

/// Reads the slot that a gate picks. Its fault is `Read` alone.
pub fn fetch_picked<D: SectorDisk>(disk: &mut D, gate: &[u8; 512]) -> Result<[u8; 512], RootFault>
    requires { 3 < size (D.disk disk.old) }
    ensures bytes { IsTrue (D.disk disk.old).honest
        → IfOk result (λ bytes. bytes ≡ sector (D.disk disk.old).now.contents (slot_by gate.now)) }
    ensures read { IfErr result (λ e. e ≡ RootFault.Read) }
    ensures left { IsLookedAt (D.disk disk.old) (D.disk disk.new) }
    ensures cause { HasCause (D.failures disk.old) (D.failures disk.new) result }
{
    fetch(disk, picked_slot(gate))
}

/// Writes the slot that a gate does not pick, and syncs.
pub fn put_spare<D: SectorDisk>(
    disk: &mut D,
    gate: &[u8; 512],
    root: &[u8; 512],
) -> Result<(), DiskFault>
    requires { 3 < size (D.disk disk.old) }
    ensures synced { IsTrue (D.disk disk.old).honest → OnOk result (AllSynced (D.disk disk.new).now) }
    ensures written { IsTrue (D.disk disk.old).honest
        → OnOk result (sector (D.disk disk.new).now.contents (spare_by gate.now) ≡ root.now) }
    ensures left { IsWrittenElsewhere (λ k. k ≢ spare_by gate.now) (D.disk disk.old) (D.disk disk.new) }
    ensures counted { IsCounted (D.disk disk.old).failed_writes (D.disk disk.new).failed_writes result }
    ensures cause { HasCause (D.failures disk.old) (D.failures disk.new) result }
{
    put(disk, spare_slot(gate), root)
}

/// Writes a gate that picks the other slot, and syncs. All that the disk holds is synced before it.
pub fn turn_gate<D: SectorDisk>(disk: &mut D, gate: &[u8; 512]) -> Result<(), DiskFault>
    requires room { 1 < size (D.disk disk.old) }
    requires synced { IsTrue (D.disk disk.old).honest → AllSynced (D.disk disk.old).now }
    ensures written { IsTrue (D.disk disk.old).honest
        → OnOk result (sector (D.disk disk.new).now.contents 1 ≡ turned gate.now) }
    ensures synced { IsTrue (D.disk disk.old).honest → OnOk result (AllSynced (D.disk disk.new).now) }
    ensures left { IsWrittenElsewhere (λ k. k ≢ 1) (D.disk disk.old) (D.disk disk.new) }
    ensures counted { IsCounted (D.disk disk.old).failed_writes (D.disk disk.new).failed_writes result }
    ensures cause { HasCause (D.failures disk.old) (D.failures disk.new) result }
{
    put(disk, GATE, &other_gate(gate))
}

/// A gate that picks the other slot.
#[tactic(auto, unfolding(crate::specs::Root::turned))]
fn other_gate(gate: &[u8; 512]) -> [u8; 512]
    ensures { result ≡ turned gate.now }
{
    let mut other = [0; 512];
    other[0] = 1 - gate[0] % 2;
    other
}
