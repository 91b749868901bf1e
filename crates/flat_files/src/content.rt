//! What a chain of layout 1 holds: a text, and then a table.

use byteorder::{BigEndian, ByteOrder};
use game_file::record_bytes;
use std::alloc::{AllocError, Global};
use table::{MemTable, Table, TableFault};

/// The bytes of a chain, and how many edges are among them.
#[derive(Drop)]
pub struct Content {
    pub bytes: Vec<u8>,
    pub edges: u64,
}

/// The text; each position with its record; the edges, ascending; the settled order.
pub fn content_of(alloc: Global, text: &[u8], table: &mut MemTable) -> Result<Content, TableFault> {
    let mut content = Content {
        bytes: text.to_vec(alloc)?,
        edges: 0,
    };
    let counts = table.counts();
    for number in 0..counts.known {
        put_cell(&mut content.bytes, table, number)?;
    }
    for number in 0..counts.known {
        put_edges_to(&mut content, table, number)?;
    }
    for place in 0..counts.settled {
        put_place(&mut content.bytes, table, place)?;
    }
    Ok(content)
}

/// The position of a number and its record, if it is known.
fn put_cell(bytes: &mut Vec<u8>, table: &mut MemTable, number: u32) -> Result<(), TableFault> {
    if number < table.counts().known {
        let position = table.packed(number)?;
        bytes.extend_from_slice(&position)?;
    }
    if number < table.counts().known {
        let kept = table.record(number)?;
        bytes.extend_from_slice(&record_bytes(&kept))?;
    }
    Ok(())
}

/// The edges to one number.
fn put_edges_to(
    content: &mut Content,
    table: &mut MemTable,
    number: u32,
) -> Result<(), TableFault> {
    let mut after = None;
    for _ in 0..table.counts().known {
        let Some(predecessor) = table.next_edge(number, after)? else {
            return Ok(());
        };
        put_number(&mut content.bytes, number)?;
        put_number(&mut content.bytes, predecessor)?;
        content.edges = content.edges.saturating_add(1);
        after = Some(predecessor);
    }
    Ok(())
}

/// The number at a place of the settled order, if there is one.
fn put_place(bytes: &mut Vec<u8>, table: &mut MemTable, place: u32) -> Result<(), TableFault> {
    if place < table.counts().settled {
        let number = table.settled_at(place)?;
        put_number(bytes, number)?;
    }
    Ok(())
}

/// The four bytes of a number.
fn put_number(bytes: &mut Vec<u8>, number: u32) -> Result<(), AllocError> {
    let mut four = [0; 4];
    BigEndian::write_u32(&mut four, number);
    bytes.extend_from_slice(&four)?;
    Ok(())
}
