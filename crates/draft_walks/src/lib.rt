// Walks along a path over a draft's words. A component is lent in three words, as for a walk over an image.
#![tactic(auto)]

ghost use Rattle.std.specs.Prelude.{◌≡◌, List, ℕ, ◌+◌, ◌/◌, ◌≤◌, ◌<◌, length, drop};
ghost use Rattle.texts.specs.Text.{order_of};
ghost use Rattle.image.specs.Sections.{text_entry_words};
ghost use Rattle.views.specs.Found.{node_found, container_found, child_found};
ghost use Rattle.views.specs.Children.{child_query};
ghost use Rattle.lookups.specs.Lookup.{found_place, entry_text, searched, named_by, find_named};
ghost use Rattle.walks.specs.Walk.{component, components, parent_query, step, steps, resolve};
ghost use Rattle.draft.specs.Source.{draft_of};
ghost use Rattle.draft_walks.specs.Walked.{walked, walk_from};

use draft::source::Source;
use image::{ImageView, NONE, NodeRecord, tag};
use std::cmp::Ordering;
use walks::{COMPONENT_WORDS, INDEX, NAME, PARENT};

// Node `id`.
fn node_of(nodes: &[u32], id: u32, source: Source) -> Option<NodeRecord>
    ensures { (children named strings : List ℕ) → result ≡ node_found (walked source.version nodes.now children named strings) id }
{
    if !image::is_inside(draft::source::node_count(nodes, source), id) {
        return None;
    }
    Some(draft::source::node_at(nodes, id as usize, source))
}

// Node `id`, if it is a container.
// Over words; its twin over bytes is `views::entries::container_of`.
fn container_of(nodes: &[u32], id: u32, source: Source) -> Option<NodeRecord>
    ensures { (children named strings : List ℕ) → result ≡ container_found (walked source.version nodes.now children named strings) id }
{
    let node = node_of(nodes, id, source)?;
    if node.tag == tag::CONTAINER {
        Some(node)
    } else {
        None
    }
}

// The node in the parent word; a step up from the root finds nothing.
// Over words; its twin over bytes is `walks::parent_of`.
fn parent_of(nodes: &[u32], id: u32, source: Source) -> Option<u32>
    ensures { (children named strings : List ℕ) → result ≡ parent_query (walked source.version nodes.now children named strings) id }
{
    let node = node_of(nodes, id, source)?;
    if node.parent == NONE {
        None
    } else {
        Some(node.parent)
    }
}

// Entry `k` of the ordered children.
fn child_of(children: &[u32], k: usize) -> Option<u32>
    ensures { (version : ℕ) (nodes named strings : List ℕ) → result ≡ child_found (walked version nodes children.now named strings) k }
{
    if k < children.len() {
        Some(children[k])
    } else {
        None
    }
}

// The `j`-th ordered child of a container.
fn child_at(nodes: &[u32], children: &[u32], id: u32, j: u32, source: Source) -> Option<u32>
    ensures { (named strings : List ℕ) → result ≡ child_query (walked source.version nodes.now children.now named strings) id j }
{
    let node = container_of(nodes, id, source)?;
    if j < node.f4 {
        child_of(children, node.f3 as usize + j as usize)
    } else {
        None
    }
}

// How the text of named entry k and the name are ordered.
fn order_at(named: &[u32], strings: &[u8], k: usize, name: &[u8]) -> Ordering
    requires { k < length named.now / text_entry_words }
    ensures { result ≡ order_of (entry_text named.now strings.now k) name.now }
{
    let entry = draft::source::entry_at(named, k);
    texts::compare(image::text_part(strings, entry.offset, entry.len), name)
}

// The place of the name among `count` named entries, from entry `from` on.
fn find(named: &[u32], strings: &[u8], from: usize, count: usize, name: &[u8]) -> Option<usize>
    requires { from + count ≤ length named.now / text_entry_words }
    ensures { found_place result ≡ searched named.now strings.now from count name.now }
{
    lookups::halve(count, |k| order_at(named, strings, from + k, name))
}

// The node of the container's named entry that bears the name.
fn named_by(container: NodeRecord, named: &[u32], strings: &[u8], name: &[u8]) -> Option<u32>
    ensures { result ≡ named_by named.now strings.now container.f5 container.f6 name.now }
{
    let from = container.f5 as usize;
    let count = container.f6 as usize;
    if named.len() / ImageView::TEXT_ENTRY_WORDS < from + count {
        return None;
    }
    let j = find(named, strings, from, count, name)?;
    Some(named[(from + j) * ImageView::TEXT_ENTRY_WORDS + 2])
}

// The named child of a container that bears the name.
fn find_named_child(
    nodes: &[u32],
    named: &[u32],
    strings: &[u8],
    id: u32,
    name: &[u8],
    source: Source,
) -> Option<u32>
    ensures { (children : List ℕ) → let s = walked source.version nodes.now children named.now strings.now in
        result ≡ find_named s id name.now }
{
    let container = container_of(nodes, id, source)?;
    named_by(container, named, strings, name)
}

// The named child whose name lies in the lent names.
fn child_named(
    nodes: &[u32],
    named: &[u32],
    strings: &[u8],
    id: u32,
    names: &[u8],
    offset: u32,
    len: u32,
    source: Source,
) -> Option<u32>
    ensures { (children : List ℕ) → let s = walked source.version nodes.now children named.now strings.now in
        result ≡ step s id (component names.now 2 offset len) }
{
    let start = offset as usize;
    let end = start + len as usize;
    if end <= names.len() {
        find_named_child(nodes, named, strings, id, &names[start..end], source)
    } else {
        None
    }
}

// One component.
fn step_along(
    nodes: &[u32],
    children: &[u32],
    named: &[u32],
    strings: &[u8],
    id: u32,
    names: &[u8],
    kind: u32,
    a: u32,
    b: u32,
    source: Source,
) -> Option<u32>
    ensures { let s = walked source.version nodes.now children.now named.now strings.now in
        result ≡ step s id (component names.now kind a b) }
{
    match kind {
        PARENT => parent_of(nodes, id, source),
        INDEX => child_at(nodes, children, id, a, source),
        NAME => child_named(nodes, named, strings, id, names, a, b, source),
        _ => None,
    }
}

// A walk from a node along the components whose words begin at `first`.
fn walk(
    nodes: &[u32],
    children: &[u32],
    named: &[u32],
    strings: &[u8],
    from: u32,
    path: &[u32],
    first: usize,
    names: &[u8],
    source: Source,
) -> Option<u32>
    ensures { let s = walked source.version nodes.now children.now named.now strings.now in
        result ≡ steps s (Some from) (components names.now (drop first path.now)) }
{
    let mut at = from;
    let mut left = &path[path.len().min(first)..];
    while let [kind, a, b, rest @ ..] = left {
        match step_along(
            nodes, children, named, strings, at, names, *kind, *a, *b, source,
        ) {
            None => {
                return None;
            }
            Some(next) => {
                at = next;
            }
        }
        left = rest;
    }
    if left.is_empty() { Some(at) } else { None }
}

// Where a walk begins. An absolute walk starts at node 0 and does not test its origin; a relative one starts at the origin if that is a
// container, else at its parent, and skips one component.
fn start_of(nodes: &[u32], origin: u32, relative: bool, source: Source) -> Option<(u32, usize)>
    ensures { (children named strings names path : List ℕ) → let s = walked source.version nodes.now children named strings in
        walk_from s result names path ≡ resolve s relative origin (components names path) }
{
    if !relative {
        return Some((0, 0));
    }
    let node = node_of(nodes, origin, source)?;
    if node.tag == tag::CONTAINER {
        return Some((origin, 0));
    }
    if node.parent == NONE {
        return None;
    }
    Some((node.parent, COMPONENT_WORDS))
}

// The node at the end of a path, in a draft.
pub fn resolve_path(
    nodes: &[u32],
    children: &[u32],
    named: &[u32],
    strings: &[u8],
    origin: u32,
    relative: bool,
    path: &[u32],
    names: &[u8],
    source: Source,
) -> Option<u32>
    ensures { (definitions items payload : List ℕ) → let s = draft_of source.version nodes.now children.now
        named.now definitions items payload strings.now in
        result ≡ resolve s relative origin (components names.now path.now) }
{
    let (from, first) = start_of(nodes, origin, relative, source)?;
    walk(
        nodes, children, named, strings, from, path, first, names, source,
    )
}
