//! The numbers of the packings.
ghost use Rattle.std.specs.Prelude.{◌≡◌, ◌≢◌, IfSome, IfNone};
ghost use Rattle.position_pack.specs.declared.kind.PackingKind.{PackingKind as Kind};
ghost use Rattle.game_file.specs.Fields.{number_of_packing};

use position_pack::PackingKind;

/// The number that a slot names this packing by.
pub fn number_of_packing(packing: PackingKind) -> u32
    ensures { result ≡ number_of_packing packing }
{
    match packing {
        PackingKind::Bytes => 1,
        PackingKind::Bits => 2,
    }
}

/// The packing with this number, if it is one's.
pub fn packing_numbered(number: u32) -> Option<PackingKind>
    ensures some { IfSome result (λ packing. number ≡ number_of_packing packing) }
    ensures none { IfNone result ((packing : Kind) → number ≢ number_of_packing packing) }
{
    match number {
        1 => Some(PackingKind::Bytes),
        2 => Some(PackingKind::Bits),
        _ => None,
    }
}
