//! Positions as text and as bytes.
use crate::games::source_of;
use game_table::Source;
use position_pack::PackingKind;
use std::alloc::Global;
use std::test::Fail;
use test_aids::{TAKE, expect};

/// Expects of the text of a position these bytes, and of another text none.
fn expect_bytes(source: &Source, want: &[u8]) -> Result<(), Fail> {
    let bytes = source.position(b">> 2 v e 0,0,3").ok_or("no position")?;
    expect(bytes.as_slice(), want, "a position")?;
    expect(
        source.position(b">> 2 v e 0,0,4").is_none(),
        true,
        "no position",
    )
}

/// Expects these bytes of the position of takes, by this packing.
fn expect_packed(alloc: Global, kind: PackingKind, want: &[u8]) -> Result<(), Fail> {
    let source = source_of(alloc, TAKE, kind)?;
    expect_bytes(&source, want)
}

#[test]
fn a_position_has_its_bytes(rt: HostRuntime) -> Result<(), Fail> {
    let bytes = [0, 0, 0, 0, 0, 0, 0, 0, 0, 3, 0, 0, 0, 2];
    expect_packed(rt.alloc(), PackingKind::Bytes, &bytes)?;
    expect_packed(rt.alloc(), PackingKind::Bits, &[0x30, 0x80])
}
