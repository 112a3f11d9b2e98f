// How many texts a node of the draft uses: its own, and those of a list's payload.
ghost use Rattle.std.specs.Prelude.{◌≡◌};
ghost use Rattle.records.specs.Fields.{kind_of};
ghost use Rattle.write_tree_sections.specs.Encoded.{texts_by, list_texts_in};

use crate::kinds::text_count;
use draft::source::payload_get;
use image::payload::{HEAD_BYTES, ITEM_BYTES, ORIGIN_COUNT_AT};
use image::{NodeRecord, tag};

// How many texts the list has whose payload starts at `start`: a name an item, a text an origin, and the origins that items have.
fn list_texts(payload: &[u8], start: u32) -> usize
    ensures { result ≡ list_texts_in payload.now start }
{
    let at = start as usize;
    let items = payload_get(payload, at) as usize;
    let origins = payload_get(payload, at + ORIGIN_COUNT_AT) as usize;
    let mut present = 0;
    for j in 0..items {
        present += text_count(payload_get(payload, at + HEAD_BYTES + j * ITEM_BYTES));
    }
    present + items + origins
}

// How many texts a node uses.
pub fn texts_of(node: NodeRecord, payload: &[u8]) -> usize
    ensures { result ≡ texts_by payload.now node (kind_of node.tag) }
{
    let kind = node.tag;
    match kind {
        tag::CONTAINER => text_count(node.f0),
        tag::CHOICE => text_count(node.f0),
        tag::DIVERT => text_count(node.f0) + text_count(node.f3),
        tag::LIST_VALUE => list_texts(payload, node.f0),
        tag::REFERENCE => 1 + text_count(node.f2),
        tag::COMMAND | tag::OPERATOR | tag::STRING_VALUE | tag::TARGET_VALUE | tag::ASSIGNMENT => 1,
        tag::TAG | tag::POINTER_VALUE => 1,
        _ => 0,
    }
}
