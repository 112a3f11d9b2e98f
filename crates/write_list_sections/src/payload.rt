// Section 6: the payload of the lists, each at its node's turn, with the offsets of its texts in the image.
ghost use Rattle.std.specs.Prelude.{◌≡◌, ◌+◌, ◌*◌, ◌/◌, ◌≤◌, length};
ghost use Rattle.laws.specs.Counted.{join_of};
ghost use Rattle.words.specs.Output.{put_at};
ghost use Rattle.write_tree_sections.specs.Encoded.{list_texts_in, texts_by};
ghost use Rattle.records.specs.Fields.{kind_of};
ghost use Rattle.write_list_sections.specs.Entered.{item_texts, list_item_words, list_origin_words, list_words, node_list_words, payload_words};
ghost use Rattle.write_list_sections.specs.Entered.{PayloadFits, PutAsBytes};
ghost use Rattle.write_list_sections.specs.Put.{PayloadPut};
ghost use Rattle.image.specs.Sections.{node_words, list_head_size, list_item_size, list_origin_size};

use draft::layout::Layout;
use draft::source::{Source, node_at, node_count, payload_get, word};
use image::payload::{
    HEAD_BYTES, ITEM_BYTES, NAME_LENGTH_AT, ORIGIN_BYTES, ORIGIN_COUNT_AT, ORIGIN_LENGTH_AT,
    VALUE_AT,
};
use image::{NodeRecord, tag};
use words::output::put_words;
use write_tree_sections::kinds::{optional_offset, text_count};
use write_tree_sections::texts_used::texts_of;

// Writes at `at` the items of the list whose payload starts at `start`; gives the word of the text that follows theirs.
fn put_list_items(
    payload: &[u8],
    start: u32,
    count: u32,
    w: &[u32],
    text: usize,
    out: &mut [u8],
    at: usize,
) -> usize
    requires count_in_bounds { text + item_texts payload.now start count ≤ length w.now }
    requires count_in_bounds_2 { at + list_item_size * count ≤ length out.old }
    ensures { let items = list_item_words payload.now w.now text start in
        (out.new ≡ put_at out.old at (join_of count items)) × (result ≡ text + item_texts payload.now start count) }
{
    let first = start as usize + HEAD_BYTES;
    let all = count as usize;
    let mut k = text;
    let mut place = at;
    for j in 0..all {
        let item = first + j * ITEM_BYTES;
        let origin = payload_get(payload, item);
        let name = k + text_count(origin);
        let words = [
            optional_offset(w, k, origin),
            payload_get(payload, item + ORIGIN_LENGTH_AT),
            word(w, name),
            payload_get(payload, item + NAME_LENGTH_AT),
            payload_get(payload, item + VALUE_AT),
        ];
        put_words(out, place, &words);
        k = name + 1;
        place += ITEM_BYTES;
    }
    k
}

// Writes at `at` the origins of a list, which lie behind its items.
fn put_list_origins(
    payload: &[u8],
    start: u32,
    items: u32,
    count: u32,
    w: &[u32],
    text: usize,
    out: &mut [u8],
    at: usize,
)
    requires { (text + count ≤ length w.now) × (at + list_origin_size * count ≤ length out.old) }
    ensures { let origins = list_origin_words payload.now w.now text (start + list_head_size + items * list_item_size) in
        out.new ≡ put_at out.old at (join_of count origins) }
{
    let first = start as usize + HEAD_BYTES + items as usize * ITEM_BYTES;
    let all = count as usize;
    let mut place = at;
    for j in 0..all {
        let origin = first + j * ORIGIN_BYTES;
        let offset = word(w, text + j);
        let len = payload_get(payload, origin + ORIGIN_LENGTH_AT);
        let words = [offset, len];
        put_words(out, place, &words);
        place += ORIGIN_BYTES;
    }
}

// Writes at `at` the list whose payload starts at `start`, and gives the byte behind it.
fn put_list(payload: &[u8], start: u32, w: &[u32], text: usize, out: &mut [u8], at: usize) -> usize
    requires start_in_bounds { text + list_texts_in payload.now start ≤ length w.now }
    requires start_in_bounds_2 { at + 4 * length (list_words payload.now w.now text start) ≤ length out.old }
    ensures { PutAsBytes (list_words payload.now w.now text start) out.old out.new at result }
{
    let first = start as usize;
    let items = payload_get(payload, first);
    let origins = payload_get(payload, first + ORIGIN_COUNT_AT);
    let head = [items, origins];
    put_words(out, at, &head);
    let behind = put_list_items(payload, start, items, w, text, out, at + HEAD_BYTES);
    let place = at + HEAD_BYTES + items as usize * ITEM_BYTES;
    put_list_origins(payload, start, items, origins, w, behind, out, place);
    place + origins as usize * ORIGIN_BYTES
}

// The same of a node, if it is a list.
fn put_node(
    node: NodeRecord,
    payload: &[u8],
    w: &[u32],
    text: usize,
    out: &mut [u8],
    at: usize,
) -> usize
    requires tag_in_bounds { text + texts_by payload.now node (kind_of node.tag) ≤ length w.now }
    requires node_in_bounds { at + 4 * length (node_list_words payload.now w.now text node) ≤ length out.old }
    ensures { PutAsBytes (node_list_words payload.now w.now text node) out.old out.new at result }
{
    if node.tag != tag::LIST_VALUE {
        return at;
    }
    put_list(payload, node.f0, w, text, out, at)
}

// Writes the section at the start of the output.
pub fn put_payload(
    nodes: &[u32],
    payload: &[u8],
    w: &[u32],
    layout: Layout,
    out: &mut [u8],
    source: Source,
)
    requires payload_fits { PayloadFits source.version nodes.now payload.now w.now layout.order layout.offsets }
    requires words_in_bounds { let words = payload_words source.version nodes.now payload.now w.now layout.order layout.offsets in
        4 * length (join_of (length nodes.now / node_words source.version) words) ≤ length out.old }
    ensures { PayloadPut source.version nodes.now payload.now w.now layout.order
        layout.offsets out.old out.new }
{
    let order = layout.order;
    let count = node_count(nodes, source);
    let mut text = layout.offsets;
    let mut at = 0;
    for j in 0..count {
        let node = node_at(nodes, word(w, order + j) as usize, source);
        at = put_node(node, payload, w, text, out, at);
        text += texts_of(node, payload);
    }
}
