//! An entry is put below a page: down to its leaf the pages are read, and on the way back each is written anew.
ghost use Rattle.std.specs.Prelude.{◌≡◌, ◌+◌, ◌*◌, ℕ, length, OnOk, IfOk, IfErr, IsTrue};
ghost use Rattle.page_store.specs.Frames.{PagesWritten, PagesRefused};
ghost use Rattle.btree.specs.declared.page.kind.Kind.TheVariants.{Inner};
ghost use Rattle.btree.specs.lemmas.Causes.{BelowCause};
ghost use Rattle.btree.specs.lemmas.Growth.{IsGrowing, IsGrownTree};
ghost use Rattle.btree.specs.lemmas.PutItems.{listed, AreFewTops};

use crate::page::{Kind, Widths, item_at, kind_of, place_of};
use crate::put::items::{FewItems, new_entry, places_of};
use crate::put::write::{write_led, write_spliced};
use byteorder::{BigEndian, ByteOrder};
use page_store::{PageFault, Pages};

/// Puts this value at this key below this page, which has this many levels below it at most. Answers the items that lead
/// to what takes its place.
pub fn put_below<P: Pages>(
    store: &mut P,
    widths: Widths,
    page: u32,
    levels: usize,
    key: &[u8],
    value: &[u8],
) -> Result<FewItems, PageFault>
    requires key { length key.now ≡ widths.key }
    requires value { length value.now ≡ widths.value }
    ensures grown { IsTrue (P.store store.old).disk.honest → (d : ℕ) → IsGrowing widths d page (P.store store.old)
        → IfOk result (λ tops. IsGrownTree widths key.now value.now d page
        (listed widths Inner tops.count tops.bytes.items) (P.store store.old) (P.store store.new)) }
    ensures tops { IfOk result (λ tops. AreFewTops widths tops.count tops.bytes.items) }
    ensures ok { OnOk result (PagesWritten (2 * levels + 2) (P.store store.old) (P.store store.new)) }
    ensures err { IfErr result (PagesRefused PageFault.Disk (BelowCause widths levels page) (2 * levels + 2) (P.store store.old) (P.store store.new)) }
{
    let mut bytes = [0; 4096];
    store.read_page(page, &mut bytes)?;
    match kind_of(widths, &bytes) {
        None => Err(PageFault::Damaged),
        Some(Kind::Leaf) => {
            let (from, to) = places_of(widths, &bytes, key);
            let entry = new_entry(widths, key, value);
            write_spliced(
                store,
                widths,
                Kind::Leaf,
                page,
                &mut bytes,
                from,
                to,
                &entry,
            )
        }
        Some(Kind::Inner) => {
            if levels == 0 {
                return Err(PageFault::Damaged);
            }
            let place = place_of(widths, Kind::Inner, &bytes, key).saturating_sub(1);
            let (_, child) = item_at(widths, Kind::Inner, &bytes, place);
            let child = BigEndian::read_u32(child);
            let tops = put_below(store, widths, child, levels - 1, key, value)?;
            write_led(store, widths, page, &mut bytes, place, &tops)
        }
    }
}
