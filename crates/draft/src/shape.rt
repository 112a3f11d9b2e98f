// Row 21: the root, the parents, the tree's entries, the order of definitions and items. Row 19 has passed: texts are good and ranges are inside.
ghost use Rattle.std.specs.Prelude.{◌≡◌, [], ◌+◌, ◌*◌, ◌≤◌, ◌<◌, length, get_or};
ghost use Rattle.laws.specs.Refusal.{passes, first_of};
ghost use Rattle.laws.specs.Counted.{all_of};
ghost use Rattle.image.specs.Refusals.{refusal_in};
ghost use Rattle.texts.specs.Text.{rising};
ghost use Rattle.image.specs.Sections.{text_entry_words, definition_words, node_count, definition_count};
ghost use Rattle.image.specs.Entries.{record_of, entry_text_from, definition_text_in};
ghost use Rattle.tree.specs.Tree.{right_child, entries_rule};
ghost use Rattle.draft.specs.Source.{drafted, draft_of};
ghost use Rattle.draft.specs.Draft.{relation_rule, order_rule, shape_rule};
ghost use Rattle.draft.specs.Shown.{right_container, named_right, TreePassed, ListsPassed, TablesPassed};

use crate::source;
use crate::source::{Draft, Source};
use image::order::texts_rise;
use image::refusal::Refusal;
use image::tag::CONTAINER;
use image::{ImageView, NodeRecord};

// Whether the text of an entry, the `place`-th from entry `first` on, comes after that of the entry before it.
// Over words; its twin over bytes is `image::order::entry_rises`.
fn entry_rises(entries: &[u32], strings: &[u8], first: usize, place: usize) -> bool
    requires { (first + place) * text_entry_words + text_entry_words ≤ length entries.now }
    ensures { result ≡ rising (entry_text_from entries.now strings.now first) place }
{
    if place == 0 {
        return true;
    }
    let last = source::entry_at(entries, first + (place - 1));
    let entry = source::entry_at(entries, first + place);
    texts_rise(strings, last.offset, last.len, entry.offset, entry.len)
}

// Whether the text of definition `d` comes after that of the definition before it.
// Over words; its twin over bytes is `image::order::definition_rises`.
fn definition_rises(definitions: &[u32], strings: &[u8], d: usize) -> bool
    requires { d * definition_words + definition_words ≤ length definitions.now }
    ensures { result ≡ rising (definition_text_in definitions.now strings.now) d }
{
    if d == 0 {
        return true;
    }
    let last = source::definition_at(definitions, d - 1);
    let definition = source::definition_at(definitions, d);
    texts_rise(
        strings,
        last.offset,
        last.len,
        definition.offset,
        definition.len,
    )
}

// Whether the word is a node whose parent is `id` and that stands at `place` among the ordered children.
fn right_child(nodes: &[u32], child: u32, id: usize, place: usize, source: Source) -> bool
    ensures { result ≡ right_child (draft_of source.version nodes.now [] [] [] [] [] []) child id place }
{
    if !image::is_inside(source::node_count(nodes, source), child) {
        return false;
    }
    if source::node_word(nodes, child as usize, NodeRecord::PARENT, source) as usize != id {
        return false;
    }
    source::node_word(nodes, child as usize, NodeRecord::PLACE, source) as usize == place
}

// Whether all of so many ordered children of container `id`, from `start` on, are right.
fn right_children(
    nodes: &[u32],
    children: &[u32],
    id: usize,
    start: usize,
    count: usize,
    source: Source,
) -> bool
    requires { start + count ≤ length children.now }
    ensures { let s = draft_of source.version nodes.now [] [] [] [] [] [] in
        result ≡ all_of count (λ j. right_child s (get_or children.now (start + j) 0) id j) }
{
    for j in 0..count {
        let child = source::word(children, start + j);
        if !right_child(nodes, child, id, j, source) {
            return false;
        }
    }
    true
}

// Whether the word is a container whose parent is `id`.
fn right_container(nodes: &[u32], n: u32, id: usize, source: Source) -> bool
    ensures { result ≡ right_container source.version nodes.now n id }
{
    if source::tag_at(nodes, n, source) != CONTAINER {
        return false;
    }
    source::node_word(nodes, n as usize, NodeRecord::PARENT, source) as usize == id
}

// Whether a named entry, the `place`-th from entry `first` on, has its text in order and names a container whose parent is `id`.
fn right_entry(
    nodes: &[u32],
    named: &[u32],
    strings: &[u8],
    id: usize,
    first: usize,
    place: usize,
    source: Source,
) -> bool
    requires { (first + place) * text_entry_words + text_entry_words ≤ length named.now }
    ensures { result ≡ named_right source.version nodes.now named.now strings.now id first place }
{
    if !entry_rises(named, strings, first, place) {
        return false;
    }
    right_container(
        nodes,
        source::entry_at(named, first + place).value,
        id,
        source,
    )
}

// Whether all of so many named entries of container `id`, from `first` on, are right.
fn right_entries(
    nodes: &[u32],
    named: &[u32],
    strings: &[u8],
    id: usize,
    first: usize,
    count: usize,
    source: Source,
) -> bool
    requires { (first + count) * text_entry_words ≤ length named.now }
    ensures { result ≡ all_of count (named_right source.version nodes.now named.now strings.now id first) }
{
    for j in 0..count {
        if !right_entry(nodes, named, strings, id, first, j, source) {
            return false;
        }
    }
    true
}

// Whether all of so many items, from `first` on, have their texts in order.
fn items_rise(items: &[u32], strings: &[u8], first: usize, count: usize) -> bool
    requires { (first + count) * text_entry_words ≤ length items.now }
    ensures { result ≡ all_of count (rising (entry_text_from items.now strings.now first)) }
{
    for j in 0..count {
        if !entry_rises(items, strings, first, j) {
            return false;
        }
    }
    true
}

// Whether the entries of node `i` are right: a container's ordered children, then its named ones; another node has none.
fn node_entries_right(
    nodes: &[u32],
    children: &[u32],
    named: &[u32],
    strings: &[u8],
    node: NodeRecord,
    i: usize,
    source: Source,
) -> bool
    requires fact { let s = draft_of source.version nodes.now children.now named.now [] [] [] strings.now in TreePassed s × (i < node_count s) }
    requires node_value { node ≡ record_of source.version nodes.now i }
    ensures { let s = draft_of source.version nodes.now children.now named.now [] [] [] strings.now in
        result ≡ passes (entries_rule s i) }
{
    if node.tag != CONTAINER {
        return true;
    }
    if !right_children(
        nodes,
        children,
        i,
        node.f3 as usize,
        node.f4 as usize,
        source,
    ) {
        return false;
    }
    right_entries(
        nodes,
        named,
        strings,
        i,
        node.f5 as usize,
        node.f6 as usize,
        source,
    )
}

// Whether the entries of every node are right.
pub fn entries_right(
    nodes: &[u32],
    children: &[u32],
    named: &[u32],
    strings: &[u8],
    source: Source,
) -> bool
    requires { TreePassed (draft_of source.version nodes.now children.now named.now [] [] [] strings.now) }
    ensures { let s = draft_of source.version nodes.now children.now named.now [] [] [] strings.now in
        result ≡ passes (first_of (node_count s) (entries_rule s)) }
{
    let count = source::node_count(nodes, source);
    for i in 0..count {
        if source::node_word(nodes, i, NodeRecord::TAG, source) == CONTAINER {
            let node = source::node_at(nodes, i, source);
            if !node_entries_right(nodes, children, named, strings, node, i, source) {
                return false;
            }
        }
    }
    true
}

// The rules of node `i`: its parent's, and those of its entries.
fn relation_rule(
    nodes: &[u32],
    children: &[u32],
    named: &[u32],
    strings: &[u8],
    i: usize,
    source: Source,
) -> Result<(), Refusal>
    requires { let s = draft_of source.version nodes.now children.now named.now [] [] [] strings.now in TreePassed s × (i < node_count s) }
    ensures { let s = draft_of source.version nodes.now children.now named.now [] [] [] strings.now in
        refusal_in result ≡ relation_rule s i }
{
    let count = source::node_count(nodes, source);
    let node = source::node_at(nodes, i, source);
    let parent_tag = source::tag_at(nodes, node.parent, source);
    if records::parent_rule(node, i, count, parent_tag).is_err() {
        return Err(Refusal::DraftShape);
    }
    if node_entries_right(nodes, children, named, strings, node, i, source) {
        Ok(())
    } else {
        Err(Refusal::DraftShape)
    }
}

// The rules of every node.
fn relations_rule(
    nodes: &[u32],
    children: &[u32],
    named: &[u32],
    strings: &[u8],
    source: Source,
) -> Result<(), Refusal>
    requires { TreePassed (draft_of source.version nodes.now children.now named.now [] [] [] strings.now) }
    ensures { let s = draft_of source.version nodes.now children.now named.now [] [] [] strings.now in
        refusal_in result ≡ first_of (node_count s) (relation_rule s) }
{
    let count = source::node_count(nodes, source);
    for i in 0..count {
        relation_rule(nodes, children, named, strings, i, source)?;
    }
    Ok(())
}

// The order of definition `d` and of its items.
fn order_rule(definitions: &[u32], items: &[u32], strings: &[u8], d: usize) -> Result<(), Refusal>
    requires { let s = draft_of 0 [] [] [] definitions.now items.now [] strings.now in ListsPassed s × (d < definition_count s) }
    ensures { let s = draft_of 0 [] [] [] definitions.now items.now [] strings.now in refusal_in result ≡ order_rule s d }
{
    if !definition_rises(definitions, strings, d) {
        return Err(Refusal::DraftShape);
    }
    let definition = source::definition_at(definitions, d);
    if items_rise(
        items,
        strings,
        definition.first as usize,
        definition.count as usize,
    ) {
        Ok(())
    } else {
        Err(Refusal::DraftShape)
    }
}

// The order of every definition and of its items.
pub fn orders_rule(definitions: &[u32], items: &[u32], strings: &[u8]) -> Result<(), Refusal>
    requires { ListsPassed (draft_of 0 [] [] [] definitions.now items.now [] strings.now) }
    ensures { let s = draft_of 0 [] [] [] definitions.now items.now [] strings.now in
        refusal_in result ≡ first_of (definition_count s) (order_rule s) }
{
    let count = definitions.len() / ImageView::DEFINITION_WORDS;
    for d in 0..count {
        order_rule(definitions, items, strings, d)?;
    }
    Ok(())
}

// Row 21 of a draft of which row 19 has shown what the rules here need.
pub fn shape_rule(draft: Draft, source: Source) -> Result<(), Refusal>
    requires { TablesPassed (drafted source.version draft) }
    ensures { let s = drafted source.version draft.entry in
        refusal_in result ≡ shape_rule s }
{
    if !records::root_right(source::node_at(draft.nodes, 0, source)) {
        return Err(Refusal::DraftShape);
    }
    relations_rule(
        draft.nodes,
        draft.children,
        draft.named,
        draft.strings,
        source,
    )?;
    orders_rule(draft.definitions, draft.items, draft.strings)
}
