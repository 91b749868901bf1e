//! The bytes of a chain become a game in memory.
ghost use Rattle.std.specs.Prelude.{◌≡◌, ◌↔◌, ◌≤◌, ◌^◌, true, length, IfOk, IfErr};
ghost use Rattle.table.specs.InMemory.{stored_in};
ghost use Rattle.game_file.specs.Numbers.{AreWithinLimits};
ghost use Rattle.earlier_layouts.specs.Length.{bytes_in};
ghost use Rattle.earlier_layouts.specs.lemmas.FileReads.{IsSizedTable, IsTableOf, IsGameIn, SpellingCause};

use crate::game::Game;
use crate::image::{BytesFault, read_table};
use game_file::Sizes;
use page_chain::Chain;
use page_store::PageFault;
use position_pack::PackingKind;
use std::alloc::Global;
use table::{MemTable, Table};

/// How many bytes such a table takes.
pub fn length_of(sizes: &Sizes) -> usize
    requires limits { AreWithinLimits sizes.now }
    requires edges { sizes.now.edges ≤ 2 ^ 32 }
    ensures { result ≡ bytes_in sizes.now }
{
    let counts = sizes.counts;
    let cells = u64::from(counts.known) * (u64::from(sizes.packed) + 16);
    let rest = 8 * sizes.edges + 4 * u64::from(counts.settled);
    (u64::from(sizes.text) + cells + rest) as usize
}

/// The game with this packing that a chain's content spells.
pub fn game_of(
    alloc: Global,
    packing: PackingKind,
    sizes: &Sizes,
    chain: Chain,
) -> Result<Game, PageFault>
    requires limits { AreWithinLimits sizes.now }
    requires long { length chain.content.items ≡ bytes_in sizes.now }
    ensures game { IfOk result (IsGameIn packing sizes.now chain.pages.items chain.content.items) }
    ensures cause { IfErr result (SpellingCause sizes.now chain.content.items) }
{
    let table = table_of(alloc, sizes, &chain.content)?;
    let mut text = chain.content;
    text.truncate(sizes.text as usize);
    Ok(Game {
        text,
        packing,
        packed: sizes.packed,
        pages: chain.pages,
        table,
    })
}

/// The table that these bytes spell. `Damaged` where its parts do not fit together or are not counted right.
fn table_of(alloc: Global, sizes: &Sizes, bytes: &[u8]) -> Result<MemTable, PageFault>
    requires limits { AreWithinLimits sizes.now }
    requires long { length bytes.now ≡ bytes_in sizes.now }
    ensures table { IfOk result (λ table. IsTableOf sizes.now bytes.now (stored_in table)) }
    ensures cause { IfErr result (SpellingCause sizes.now bytes.now) }
{
    let table = match read_table(alloc, sizes, bytes) {
        Ok(table) => table,
        Err(BytesFault::Damaged) => return Err(PageFault::Damaged),
        Err(BytesFault::OutOfMemory) => return Err(PageFault::OutOfMemory),
    };
    if !is_whole(alloc, sizes, &table)? {
        return Err(PageFault::Damaged);
    }
    Ok(table)
}

/// Whether the table's parts fit together and are counted right.
fn is_whole(alloc: Global, sizes: &Sizes, table: &MemTable) -> Result<bool, PageFault>
    ensures whole { IfOk result (λ whole. (whole ≡ true) ↔ IsSizedTable sizes.now (stored_in table.now)) }
    ensures cause { IfErr result (λ fault. fault ≡ PageFault.OutOfMemory) }
{
    let fits = table
        .fits(alloc, sizes.packed)
        .map_err(|_| PageFault::OutOfMemory)?;
    Ok(fits & (table.counts() == sizes.counts))
}
