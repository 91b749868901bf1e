//! Items as bytes: those of a page, and those that lead to one page or two.
ghost use Rattle.std.specs.Prelude.{◌≡◌, ◌≤◌, ◌<◌, ◌+◌, ◌-◌, ◌*◌, ◌/◌, ◌↔◌, ◌++◌, ◌∷◌, [], List, ℕ};
ghost use Rattle.std.specs.Prelude.{length, take, drop, slice_get, None, Some, IsTrue};
ghost use Rattle.std.specs.List.{copy_within};
ghost use Rattle.arrayvec.specs.ArrayVec.{array_vec_len};
ghost use Rattle.byteorder.specs.Endian.{big_bytes};
ghost use Rattle.btree.specs.declared.page.kind.Kind.TheVariants.{Leaf, Inner};
ghost use Rattle.btree.specs.Page.{Item, behind_of, child_of, count_in, item_width, items_in, items_of, least_of, IsPage};
ghost use Rattle.btree.specs.Entries.{Ascend, find_entry, put_entry};
ghost use Rattle.btree.specs.lemmas.PutItems.{listed, AreItemBytes, CutsAt, IsCut};
ghost use Rattle.btree.specs.declared.page.kind.TheConstants.{ROOM};

use crate::page::{HEAD, Kind, Widths, behind_of, count_of, item_at, place_of, set_count};
use arrayvec::ArrayVec;
use byteorder::{BigEndian, ByteOrder};

/// As many bytes as a page has room for, and two items more.
const MOST: usize = 5_120;

/// As many bytes as two items that lead to pages take, or one entry.
const FEW: usize = 520;

/// The items of a page, or of a page that became too full.
#[derive(Drop)]
pub struct Items {
    /// How many there are.
    pub count: usize,
    /// How many of them stay on the first page, where they take two.
    pub cut: usize,
    /// Their bytes.
    pub bytes: ArrayVec<u8, MOST>,
}

/// One item or two.
#[derive(Drop)]
pub struct FewItems {
    /// How many there are.
    pub count: usize,
    /// Their bytes.
    pub bytes: ArrayVec<u8, FEW>,
}

/// No items, with room for two.
pub fn no_few_items() -> FewItems
    ensures count { result.count ≡ 0 }
    ensures bytes { result.bytes.items ≡ [] }
{
    FewItems {
        count: 0,
        bytes: ArrayVec::new(),
    }
}

/// Puts more after the bytes.
fn put_bytes<const N: usize>(bytes: &mut ArrayVec<u8, N>, more: &[u8])
    requires { array_vec_len bytes.old + length more.now ≤ N }
    ensures { bytes.new.items ≡ bytes.old.items ++ more.now }
{
    let _room = bytes.try_extend_from_slice(more);
}

/// One item more, which leads to this page.
pub fn lead_to(widths: Widths, items: &mut FewItems, key: &[u8], page: u32)
    requires key { length key.now ≡ widths.key }
    requires few { items.old.count ≤ 1 }
    requires whole { AreItemBytes widths Inner items.old.count items.old.bytes.items }
    ensures count { items.new.count ≡ items.old.count + 1 }
    ensures whole { AreItemBytes widths Inner items.new.count items.new.bytes.items }
    ensures listed { listed widths Inner items.new.count items.new.bytes.items
        ≡ listed widths Inner items.old.count items.old.bytes.items ++ (key.now, big_bytes 4 page) ∷ [] }
{
    let mut number = [0; 4];
    BigEndian::write_u32(&mut number, page);
    put_bytes(&mut items.bytes, key);
    put_bytes(&mut items.bytes, &number);
    items.count += 1;
}

/// How many of this many items stay on the first of two pages. Where none of the page's old items is after the new ones, all
/// but as few as a page may have, so that pages that grow at their end are left full; and else half.
fn cut_of(kind: Kind, count: usize, behind: usize) -> usize
    ensures end { behind ≡ 0 → result ≡ count - least_of kind }
    ensures half { 1 ≤ behind → result ≡ count / 2 }
{
    if behind > 0 {
        return count / 2;
    }
    match kind {
        Kind::Leaf => count.saturating_sub(1),
        Kind::Inner => count.saturating_sub(2),
    }
}

/// The items of a page, with these in the place of those from one place up to another.
pub fn spliced(
    widths: Widths,
    kind: Kind,
    page: &[u8; 4096],
    from: usize,
    to: usize,
    count: usize,
    bytes: &[u8],
) -> Items
    requires page { IsPage widths kind page.now }
    requires order { from ≤ to }
    requires within { to ≤ count_in page.now }
    requires few { count ≤ 2 }
    requires one_more { from + count ≤ to + 1 }
    requires whole { length bytes.now ≡ count * item_width widths kind }
    ensures count { result.count ≡ from + count + (count_in page.now - to) }
    ensures cuts { CutsAt kind result.count (count_in page.now - to) result.cut }
    ensures cut { ROOM < result.count * item_width widths kind → IsCut widths kind result.count result.cut }
    ensures whole { AreItemBytes widths kind result.count result.bytes.items }
    ensures listed { listed widths kind result.count result.bytes.items
        ≡ take from (items_in widths kind page.now) ++ (items_of widths.key (behind_of widths kind) count bytes.now
        ++ drop to (items_in widths kind page.now)) }
{
    let width = widths.key + behind_of(widths, kind);
    let all = count_of(page);
    let total = from + count + (all - to);
    let mut items = Items {
        count: total,
        cut: cut_of(kind, total, all - to),
        bytes: ArrayVec::new(),
    };
    put_bytes(&mut items.bytes, &page[HEAD..HEAD + from * width]);
    put_bytes(&mut items.bytes, bytes);
    put_bytes(
        &mut items.bytes,
        &page[HEAD + to * width..HEAD + all * width],
    );
    items
}

/// Moves the bytes `start..end` of a page to `to`. Where `start` is `to`, nothing is moved.
fn move_within(page: &mut [u8; 4096], start: usize, end: usize, to: usize)
    requires order { start ≤ end }
    requires within { end ≤ 4096 }
    requires room { to + (end - start) ≤ 4096 }
    ensures { page.new ≡ copy_within page.old start end to }
{
    if start == end {
        return;
    }
    if to < start {
        page.copy_within(start..end, to);
    } else if start < to {
        move_on(page, start, end, to - start);
    }
}

/// Moves the bytes `start..end` of a page on by so many. Where it knows how many these are, the compiler makes one `memmove` of it: by eight
/// goes an entry of two numbers.
fn move_on(page: &mut [u8; 4096], start: usize, end: usize, by: usize)
    requires order { start ≤ end }
    requires room { end + by ≤ 4096 }
    ensures { page.new ≡ copy_within page.old start end (start + by) }
{
    if by == 8 {
        page.copy_within(start..end, start + 8);
    } else {
        page.copy_within(start..end, start + by);
    }
}

/// Splices items in on the page itself, where it has room. What stands after its items is moved along or stays.
pub fn splice_in(
    widths: Widths,
    kind: Kind,
    page: &mut [u8; 4096],
    from: usize,
    to: usize,
    count: usize,
    bytes: &[u8],
)
    requires page { IsPage widths kind page.old }
    requires order { from ≤ to }
    requires within { to ≤ count_in page.old }
    requires few { count ≤ 2 }
    requires enough { least_of kind ≤ from + count + (count_in page.old - to) }
    requires whole { length bytes.now ≡ count * item_width widths kind }
    requires room { (from + count + (count_in page.old - to)) * item_width widths kind ≤ ROOM }
    ensures page { IsPage widths kind page.new }
    ensures items { items_in widths kind page.new
        ≡ take from (items_in widths kind page.old)
        ++ (items_of widths.key (behind_of widths kind) count bytes.now ++ drop to (items_in widths kind page.old)) }
{
    let width = widths.key + behind_of(widths, kind);
    let all = count_of(page);
    let start = HEAD + from * width;
    let end = start + bytes.len();
    let rest = HEAD + to * width;
    let last = HEAD + all * width;
    move_within(page, rest, last, end);
    page[start..end].copy_from_slice(bytes);
    set_count(page, from + count + (all - to));
}

/// Puts a key with its value on a leaf itself, which has room for it, in the place of its items from one place up to another.
pub fn put_on_page(
    widths: Widths,
    page: &mut [u8; 4096],
    from: usize,
    to: usize,
    key: &[u8],
    value: &[u8],
)
    requires page { IsPage widths Leaf page.old }
    requires order { from ≤ to }
    requires within { to ≤ count_in page.old }
    requires key { length key.now ≡ widths.key }
    requires value { length value.now ≡ widths.value }
    requires room { (from + 1 + (count_in page.old - to)) * item_width widths Leaf ≤ ROOM }
    ensures page { IsPage widths Leaf page.new }
    ensures items { items_in widths Leaf page.new
        ≡ take from (items_in widths Leaf page.old) ++ (key.now, value.now) ∷ drop to (items_in widths Leaf page.old) }
{
    let width = widths.key + widths.value;
    let all = count_of(page);
    let start = HEAD + from * width;
    let behind = start + key.len();
    let end = behind + value.len();
    move_within(page, HEAD + to * width, HEAD + all * width, end);
    page[start..behind].copy_from_slice(key);
    page[behind..end].copy_from_slice(value);
    set_count(page, from + 1 + (all - to));
}

/// This key with this value.
pub fn new_entry(widths: Widths, key: &[u8], value: &[u8]) -> FewItems
    requires key { length key.now ≡ widths.key }
    requires value { length value.now ≡ widths.value }
    ensures count { result.count ≡ 1 }
    ensures whole { AreItemBytes widths Leaf result.count result.bytes.items }
    ensures listed { listed widths Leaf result.count result.bytes.items ≡ (key.now, value.now) ∷ [] }
{
    let mut entry = no_few_items();
    put_bytes(&mut entry.bytes, key);
    put_bytes(&mut entry.bytes, value);
    entry.count = 1;
    entry
}

/// The page that the first item leads to.
pub fn first_child(widths: Widths, items: &FewItems) -> u32
    requires some { 1 ≤ items.now.count }
    requires whole { AreItemBytes widths Inner items.now.count items.now.bytes.items }
    ensures { (c : Item) → slice_get (listed widths Inner items.now.count items.now.bytes.items) 0 ≡ Some c → result ≡ child_of c }
{
    BigEndian::read_u32(&items.bytes[widths.key..widths.key + 4])
}

/// Whether an inner page has this one item at this place.
pub fn has_item(widths: Widths, page: &[u8; 4096], place: usize, items: &FewItems) -> bool
    requires page { IsPage widths Inner page.now }
    requires within { place < count_in page.now }
    requires whole { AreItemBytes widths Inner items.now.count items.now.bytes.items }
    ensures { IsTrue result → take place (items_in widths Inner page.now)
        ++ (listed widths Inner items.now.count items.now.bytes.items ++ drop (place + 1) (items_in widths Inner page.now))
        ≡ items_in widths Inner page.now }
{
    if items.count != 1 {
        return false;
    }
    let (key, child) = item_at(widths, Kind::Inner, page, place);
    let (its_key, its_child) = items.bytes.split_at(widths.key);
    key == its_key && child == its_child
}

/// The item that leads to this page.
pub fn one_lead(widths: Widths, key: &[u8], page: u32) -> FewItems
    requires { length key.now ≡ widths.key }
    ensures count { result.count ≡ 1 }
    ensures whole { AreItemBytes widths Inner result.count result.bytes.items }
    ensures listed { listed widths Inner result.count result.bytes.items ≡ (key.now, big_bytes 4 page) ∷ [] }
{
    let mut items = no_few_items();
    lead_to(widths, &mut items, key, page);
    items
}

/// Where in a leaf this key belongs: from the place that it has, or would have, up to the next, or up to itself where it is not there.
pub fn places_of(widths: Widths, page: &[u8; 4096], key: &[u8]) -> (usize, usize)
    requires { IsPage widths Leaf page.now }
    ensures order { result.0 ≤ result.1 }
    ensures one { result.1 ≤ result.0 + 1 }
    ensures within { result.1 ≤ count_in page.now }
    ensures put { Ascend (items_in widths Leaf page.now) → (value : List ℕ)
        → take result.0 (items_in widths Leaf page.now) ++ (key.now, value) ∷ drop result.1 (items_in widths Leaf page.now)
        ≡ put_entry (items_in widths Leaf page.now) key.now value }
    ensures new_key { result.0 ≡ result.1 → Ascend (items_in widths Leaf page.now) → None ≡ find_entry (items_in widths Leaf page.now) key.now }
{
    let to = place_of(widths, Kind::Leaf, page, key);
    if has_key(widths, page, to, key) {
        (to - 1, to)
    } else {
        (to, to)
    }
}

/// Whether the item before this place has this key.
fn has_key(widths: Widths, page: &[u8; 4096], place: usize, key: &[u8]) -> bool
    requires page { IsPage widths Leaf page.now }
    requires within { place ≤ count_in page.now }
    ensures { IsTrue result ↔ ((e : Item) × (slice_get (items_in widths Leaf page.now) (place - 1) ≡ Some e)
        × (1 ≤ place) × (e.0 ≡ key.now)) }
{
    if place == 0 {
        return false;
    }
    let (found, _) = item_at(widths, Kind::Leaf, page, place - 1);
    found == key
}
