// The texts of a draft in the order of use, as words: two a use, its offset and its length.
// The work words are lent by C's caller: no heap is used.
#![tactic(auto)]

ghost use Rattle.std.specs.Prelude.{◌≡◌, List, [], ◌∷◌, ◌++◌, ℕ, ◌+◌, ◌*◌, ◌/◌, ◌≤◌, ◌<◌, length};
ghost use Rattle.laws.specs.Counted.{join_of};
ghost use Rattle.image.specs.Sections.{node_words, definition_words, list_head_size, list_item_size, list_origin_size, node_count, absent, tag_of, f};
ghost use Rattle.image.specs.Tags.{list_tag};
ghost use Rattle.draft.specs.Source.{draft_of, nodes_only};
ghost use Rattle.write_text_uses.specs.Uses.{use_if, list_item_pairs, list_pairs, node_pairs, named_pairs, definition_pairs, all_node_pairs};
ghost use Rattle.write_text_uses.specs.Uses.{all_named_pairs, all_definition_pairs, origin_pairs, entry_pairs, words_from, Room, Put, payload_only};
ghost use Rattle.write_text_uses.specs.Uses.{named_only, definitions_only, ListInside, Olds, Readable, Collectable, Collected};

use draft::source::{Source, definition_at, node_at, node_count, payload_word, word};
use image::payload::{
    HEAD_BYTES, ITEM_BYTES, NAME_AT, NAME_LENGTH_AT, ORIGIN_BYTES, ORIGIN_COUNT_AT,
    ORIGIN_LENGTH_AT,
};
use image::{ImageView, NONE, tag};

// Whether both words of a text say that it is absent.
fn is_absent(offset: u32, len: u32) -> bool
    ensures { result ≡ absent offset len }
{
    offset == NONE && len == NONE
}

// Writes the words of one use, and says where the next ones go.
fn put_use(w: &mut [u32], at: usize, offset: u32, len: u32) -> usize
    requires { Room (offset ∷ len ∷ []) w.old at }
    ensures { Put (offset ∷ len ∷ []) w.old at w.new result }
{
    w[at] = offset;
    w[at + 1] = len;
    at + 2
}

// The same of a text that may be absent.
fn put_optional(w: &mut [u32], at: usize, offset: u32, len: u32) -> usize
    requires { Room (use_if offset len) w.old at }
    ensures { Put (use_if offset len) w.old at w.new result }
{
    if is_absent(offset, len) {
        return at;
    }
    put_use(w, at, offset, len)
}

// Of item `j` of the list whose payload starts at `start`.
fn put_list_item(payload: &[u8], start: usize, j: usize, w: &mut [u32], at: usize) -> usize
    requires list_item_size_in_bounds { start + (list_head_size + j * list_item_size + list_item_size) ≤ length payload.now }
    requires room { Room (list_item_pairs (payload_only payload.now) start j) w.old at }
    ensures { Put (list_item_pairs (payload_only payload.now) start j) w.old at w.new result }
{
    let item = start + (HEAD_BYTES + j * ITEM_BYTES);
    let origin = payload_word(payload, item);
    let origin_len = payload_word(payload, item + ORIGIN_LENGTH_AT);
    let name = payload_word(payload, item + NAME_AT);
    let name_len = payload_word(payload, item + NAME_LENGTH_AT);
    let behind = put_optional(w, at, origin, origin_len);
    put_use(w, behind, name, name_len)
}

// Of the items of a list.
fn put_list_items(payload: &[u8], start: usize, count: usize, w: &mut [u32], at: usize) -> usize
    requires list_item_size_in_bounds { start + (list_head_size + count * list_item_size) ≤ length payload.now }
    requires room { Room (join_of count (list_item_pairs (payload_only payload.now) start)) w.old at }
    ensures { Put (join_of count (list_item_pairs (payload_only payload.now) start)) w.old at w.new result }
{
    let mut k = at;
    for j in 0..count {
        k = put_list_item(payload, start, j, w, k);
    }
    k
}

// Of the origins of a list, the first of which lies at byte `first`.
fn put_list_origins(payload: &[u8], first: usize, count: usize, w: &mut [u32], at: usize) -> usize
    requires list_origin_size_in_bounds { first + count * list_origin_size ≤ length payload.now }
    requires room { Room (join_of count (origin_pairs payload.now first)) w.old at }
    ensures { Put (join_of count (origin_pairs payload.now first)) w.old at w.new result }
{
    let mut k = at;
    for j in 0..count {
        let offset = payload_word(payload, first + j * ORIGIN_BYTES);
        let len = payload_word(payload, first + j * ORIGIN_BYTES + ORIGIN_LENGTH_AT);
        k = put_use(w, k, offset, len);
    }
    k
}

// Of the list whose payload starts at `start`.
fn put_list(payload: &[u8], start: usize, w: &mut [u32], at: usize) -> usize
    requires list_inside { ListInside (payload_only payload.now) start }
    requires room { Room (list_pairs (payload_only payload.now) start) w.old at }
    ensures { Put (list_pairs (payload_only payload.now) start) w.old at w.new result }
{
    let items = payload_word(payload, start) as usize;
    let origins = payload_word(payload, start + ORIGIN_COUNT_AT) as usize;
    let behind = put_list_items(payload, start, items, w, at);
    put_list_origins(
        payload,
        start + (HEAD_BYTES + items * ITEM_BYTES),
        origins,
        w,
        behind,
    )
}

// Of a divert: its path and its variable, both of which may be absent.
fn put_divert(w: &mut [u32], at: usize, path: u32, path_len: u32, name: u32, name_len: u32) -> usize
    requires { Room (use_if path path_len ++ use_if name name_len) w.old at }
    ensures { Put (use_if path path_len ++ use_if name name_len) w.old at w.new result }
{
    let behind = put_optional(w, at, path, path_len);
    put_optional(w, behind, name, name_len)
}

// Of a reference: its name, and its path, which may be absent.
fn put_reference(
    w: &mut [u32],
    at: usize,
    name: u32,
    name_len: u32,
    path: u32,
    path_len: u32,
) -> usize
    requires { Room ((name ∷ name_len ∷ []) ++ use_if path path_len) w.old at }
    ensures { Put ((name ∷ name_len ∷ []) ++ use_if path path_len) w.old at w.new result }
{
    let behind = put_use(w, at, name, name_len);
    put_optional(w, behind, path, path_len)
}

// Of node `i`, in field order.
fn put_node(
    nodes: &[u32],
    i: usize,
    payload: &[u8],
    w: &mut [u32],
    at: usize,
    source: Source,
) -> usize
    requires i_in_bounds { i < length nodes.now / node_words source.version }
    requires list_inside { let s = nodes_only source.version nodes.now payload.now in
        tag_of s i ≡ list_tag → ListInside s (f s i 0) }
    requires room { Room (node_pairs (nodes_only source.version nodes.now payload.now) i) w.old at }
    ensures { let s = nodes_only source.version nodes.now payload.now in
        Put (node_pairs s i) w.old at w.new result }
{
    let node = node_at(nodes, i, source);
    let kind = node.tag;
    match kind {
        tag::CONTAINER => put_optional(w, at, node.f0, node.f1),
        tag::CHOICE => put_optional(w, at, node.f0, node.f1),
        tag::COMMAND | tag::OPERATOR | tag::STRING_VALUE | tag::TARGET_VALUE | tag::ASSIGNMENT =>
            put_use(w, at, node.f0, node.f1),
        tag::TAG | tag::POINTER_VALUE => put_use(w, at, node.f0, node.f1),
        tag::DIVERT => put_divert(w, at, node.f0, node.f1, node.f3, node.f4),
        tag::LIST_VALUE => put_list(payload, node.f0 as usize, w, at),
        tag::REFERENCE => put_reference(w, at, node.f0, node.f1, node.f2, node.f3),
        _ => at,
    }
}

// Of all nodes, in the image's order: the words from `order` on are their numbers in the draft.
fn put_nodes(
    nodes: &[u32],
    payload: &[u8],
    w: &mut [u32],
    order: usize,
    at: usize,
    source: Source,
) -> usize
    requires { let s = nodes_only source.version nodes.now payload.now in
        let numbers = words_from w.old order (node_count s) in
        Readable s numbers × (order + node_count s ≤ length w.old) × (at + length (all_node_pairs s numbers) ≤ order) }
    ensures { let s = nodes_only source.version nodes.now payload.now in
        Put (all_node_pairs s (words_from w.old order (node_count s))) w.old at w.new result }
{
    let count = node_count(nodes, source);
    let mut k = at;
    for j in 0..count {
        let i = w[order + j] as usize;
        k = put_node(nodes, i, payload, w, k, source);
    }
    k
}

// Of so many entries of three words, from the first on.
fn put_entries(entries: &[u32], first: u32, count: u32, w: &mut [u32], at: usize) -> usize
    requires { Room (join_of count (entry_pairs entries.now first)) w.old at }
    ensures { Put (join_of count (entry_pairs entries.now first)) w.old at w.new result }
{
    let start = first as usize;
    let end = count as usize;
    let mut k = at;
    for j in 0..end {
        let entry = (start + j) * ImageView::TEXT_ENTRY_WORDS;
        let offset = word(entries, entry);
        let len = word(entries, entry + 1);
        k = put_use(w, k, offset, len);
    }
    k
}

// Of the named entries of node `i`. A node that is no container has none.
fn put_container(
    nodes: &[u32],
    i: usize,
    named: &[u32],
    w: &mut [u32],
    at: usize,
    source: Source,
) -> usize
    requires i_in_bounds { i < length nodes.now / node_words source.version }
    requires room { Room (named_pairs (named_only source.version nodes.now named.now) i) w.old at }
    ensures { let s = named_only source.version nodes.now named.now in
        Put (named_pairs s i) w.old at w.new result }
{
    let node = node_at(nodes, i, source);
    if node.tag != tag::CONTAINER {
        return at;
    }
    put_entries(named, node.f5, node.f6, w, at)
}

// Of the named entries of all nodes, in the image's order.
// Beside `put_nodes` the step differs. One loop for both would take it as a closure that writes to `w`, with both contracts' facts: no plainer.
fn put_named(
    nodes: &[u32],
    named: &[u32],
    w: &mut [u32],
    order: usize,
    at: usize,
    source: Source,
) -> usize
    requires { let s = named_only source.version nodes.now named.now in
        let numbers = words_from w.old order (node_count s) in
        Olds (node_count s) numbers × (order + node_count s ≤ length w.old) × (at + length (all_named_pairs s numbers) ≤ order) }
    ensures { let s = named_only source.version nodes.now named.now in
        Put (all_named_pairs s (words_from w.old order (node_count s))) w.old at w.new result }
{
    let count = node_count(nodes, source);
    let mut k = at;
    for j in 0..count {
        let i = w[order + j] as usize;
        k = put_container(nodes, i, named, w, k, source);
    }
    k
}

// Of definition `d` and its items.
fn put_definition(definitions: &[u32], items: &[u32], d: usize, w: &mut [u32], at: usize) -> usize
    requires definition_words_in_bounds { d * definition_words + definition_words ≤ length definitions.now }
    requires room { Room (definition_pairs (definitions_only definitions.now items.now) d) w.old at }
    ensures { let s = definitions_only definitions.now items.now in
        Put (definition_pairs s d) w.old at w.new result }
{
    let definition = definition_at(definitions, d);
    let behind = put_use(w, at, definition.offset, definition.len);
    put_entries(items, definition.first, definition.count, w, behind)
}

// Of all definitions, each with its items.
fn put_definitions(definitions: &[u32], items: &[u32], w: &mut [u32], at: usize) -> usize
    requires { Room (all_definition_pairs (definitions_only definitions.now items.now)) w.old at }
    ensures { let s = definitions_only definitions.now items.now in
        Put (all_definition_pairs s) w.old at w.new result }
{
    let count = definitions.len() / ImageView::DEFINITION_WORDS;
    let mut k = at;
    for d in 0..count {
        k = put_definition(definitions, items, d, w, k);
    }
    k
}

// Writes the words of every use of a draft from `at` on, below the draft's numbers of the image's nodes, which lie from `order` on;
// and counts the uses.
pub fn collect(
    nodes: &[u32],
    named: &[u32],
    definitions: &[u32],
    items: &[u32],
    payload: &[u8],
    w: &mut [u32],
    order: usize,
    at: usize,
    source: Source,
) -> usize
    requires { Collectable source.version nodes.now named.now definitions.now items.now payload.now w.old order at }
    ensures { (children strings : List ℕ) → let s =
        draft_of source.version nodes.now children named.now definitions.now items.now
        payload.now strings in
        Collected s (words_from w.old order (node_count s)) w.old at w.new result }
{
    let behind_nodes = put_nodes(nodes, payload, w, order, at, source);
    let behind_named = put_named(nodes, named, w, order, behind_nodes, source);
    let end = put_definitions(definitions, items, w, behind_named);
    (end - at) / 2
}
