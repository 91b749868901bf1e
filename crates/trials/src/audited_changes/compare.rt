//! Whether the audit answers what the second reading says.
use crate::audited_changes::changes::{Change, changed, changes_of};
use crate::audited_changes::parts::{Parts, Place, places_of, worked};
use crate::audited_changes::reading::verdict_of;
use crate::audited_changes::stored::audited;
use audit::Verdict;
use game_table::Source;
use position_pack::PackingKind;
use std::alloc::Global;

/// As many units as no small game needs.
const ALL_UNITS: u32 = 100_000;

/// How many changes were tried, how many of them were opened, and how many of those are right.
#[derive(Clone, Copy, PartialEq, Eq, Debug, Drop)]
struct Tally {
    tried: u32,
    opened: u32,
    right: u32,
}

/// Whether one change is judged alike. It is counted.
fn is_alike(
    rt: &HostRuntime,
    text: &[u8],
    parts: &Parts,
    places: &[Place],
    change: Change,
    tally: &mut Tally,
) -> anyhow::Result<bool> {
    let alloc = rt.alloc();
    let other = changed(alloc, parts, change)?;
    tally.tried = tally.tried.saturating_add(1);
    let Some(found) = audited(alloc, text, &other)? else {
        return Ok(true);
    };
    tally.opened = tally.opened.saturating_add(1);
    if found == Verdict::Right {
        tally.right = tally.right.saturating_add(1);
    }
    let wanted = verdict_of(&other, places);
    if found != wanted {
        println!(rt; "{change:?}: the audit answers {found:?}, and the second reading {wanted:?}")?;
    }
    Ok(found == wanted)
}

/// Whether each change of this table, one in each group of this many, is judged alike.
fn are_alike(
    rt: &HostRuntime,
    text: &[u8],
    source: &Source,
    parts: &Parts,
    step: usize,
) -> anyhow::Result<bool> {
    let alloc = rt.alloc();
    let places = places_of(alloc, source, &parts.positions)?;
    let mut tally = Tally {
        tried: 0,
        opened: 0,
        right: 0,
    };
    for change in changes_of(alloc, parts)?.iter().step_by(step.max(1)) {
        if !is_alike(rt, text, parts, &places, *change, &mut tally)? {
            return Ok(false);
        }
    }
    eprintln!(rt; "{tally:?}")?;
    // the table as it was is opened and right, and something else is not
    Ok(tally.right > 0 && tally.right < tally.opened)
}

/// Whether each change of the table of this game after this many units, one in each group of this many, is judged alike; and how many
/// positions that table knows.
fn are_alike_after(
    rt: &HostRuntime,
    text: &[u8],
    source: &Source,
    units: u32,
    step: usize,
) -> anyhow::Result<(bool, u32)> {
    let parts = worked(rt.alloc(), source, units)?;
    let known = u32::try_from(parts.records.len())?;
    Ok((are_alike(rt, text, source, &parts, step)?, known))
}

/// Whether each change of the finished table of this game, and of the table worked half as far, is judged alike.
pub fn compare(rt: &HostRuntime, alloc: Global, text: &[u8], step: usize) -> anyhow::Result<bool> {
    let source = Source::read(alloc, text, PackingKind::Bits, None)?;
    let (whole, known) = are_alike_after(rt, text, &source, ALL_UNITS, step)?;
    Ok(whole && are_alike_after(rt, text, &source, known / 2, step)?.0)
}
