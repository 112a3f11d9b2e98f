// The tree: the rules of a container's entries, and the walk from the root.
// The work words are lent by C's caller: no heap is used.
#![tactic(auto)]

ghost use Rattle.std.specs.Prelude.{◌≡◌, [], ◌++◌, reverse, ℕ, ◌+◌, ◌*◌, ◌≤◌, ◌<◌, length, get_or, drop, replicate};
ghost use Rattle.laws.specs.Counted.{all_of};
ghost use Rattle.image.specs.Refusals.{refusal_in, value_in};
ghost use Rattle.image.specs.Sections.{text_entry_size, node_count, child_count, named_count, f, inside_container};
ghost use Rattle.tree.specs.Tree.{right_child, named_rule, entry_nodes, tree_rule};
ghost use Rattle.tree.specs.Work.{LoadWalkResult, tree_words, marked};
ghost use Rattle.tree.specs.Parts.{parts_of, Fit, ChildrenPushed, NamedPushed, NodeEntered};

use image::refusal::Refusal;
use image::{NodeRecord, tag};

// Whether the word is a node, its parent is `id` and it stands at `place` among the ordered children.
fn right_child(nodes: &[u8], child: u32, id: usize, place: usize, version: u32) -> bool
    ensures { result ≡ right_child (parts_of version nodes.now [] [] []) child id place }
{
    if !image::is_inside(image::node_count(nodes, version), child) {
        return false;
    }
    let at = child as usize;
    if image::node_word(nodes, version, at, NodeRecord::PARENT) as usize != id {
        return false;
    }
    image::node_word(nodes, version, at, NodeRecord::PLACE) as usize == place
}

// Whether the word is a container.
pub fn is_container(nodes: &[u8], node: u32, version: u32) -> bool
    ensures { result ≡ inside_container (parts_of version nodes.now [] [] []) node }
{
    if !image::is_inside(image::node_count(nodes, version), node) {
        return false;
    }
    image::node_word(nodes, version, node as usize, NodeRecord::TAG) == tag::CONTAINER
}

// The refusal of the named entry that stands at `place` among those of container `id`, which start at `first`.
fn named_rule(
    nodes: &[u8],
    named: &[u8],
    strings: &[u8],
    id: usize,
    first: usize,
    place: usize,
    version: u32,
) -> Result<(), Refusal>
    requires text_entry_size_in_bounds { text_entry_size * (first + place) + text_entry_size ≤ length named.now }
    requires first_value { first ≡ f (parts_of version nodes.now [] named.now strings.now) id 5 }
    ensures { refusal_in result ≡ named_rule (parts_of version nodes.now [] named.now strings.now) id place }
{
    let entry = image::text_entry(named, first + place);
    if !image::good_text(strings, entry.offset, entry.len) {
        return Err(Refusal::BadChild);
    }
    if !image::order::entry_rises(named, strings, first, place) {
        return Err(Refusal::BadChild);
    }
    if !is_container(nodes, entry.value, version) {
        return Err(Refusal::BadNode);
    }
    if image::node_word(nodes, version, entry.value as usize, NodeRecord::PARENT) as usize == id {
        Ok(())
    } else {
        Err(Refusal::BadChild)
    }
}

// Tests the ordered children of container `id` and pushes them onto the stack, up to the first that is refused.
fn push_children(
    nodes: &[u8],
    children: &[u8],
    id: usize,
    start: usize,
    count: usize,
    work: &mut [u32],
    base: usize,
    depth: usize,
    version: u32,
) -> Result<(), Refusal>
    requires start_value { start ≡ f (parts_of version nodes.now children.now [] []) id 3 }
    requires count_bound { (start + count ≤ child_count (parts_of version nodes.now children.now [] [])) × (base + depth + count ≤ length work.old) }
    ensures { ChildrenPushed version nodes.now children.now
        id count base depth work.old work.new (refusal_in result) }
{
    for j in 0..count {
        let child = image::part_word(children, start + j);
        if !right_child(nodes, child, id, j, version) {
            return Err(Refusal::BadChild);
        }
        work[base + depth + j] = child;
    }
    Ok(())
}

// Tests the named children of container `id` and pushes them onto the stack, up to the first that is refused.
fn push_named(
    nodes: &[u8],
    named: &[u8],
    strings: &[u8],
    id: usize,
    start: usize,
    count: usize,
    work: &mut [u32],
    base: usize,
    depth: usize,
    version: u32,
) -> Result<(), Refusal>
    requires start_value { start ≡ f (parts_of version nodes.now [] named.now strings.now) id 5 }
    requires count_bound { (start + count ≤ named_count (parts_of version nodes.now [] named.now strings.now)) × (base + depth + count ≤ length work.old) }
    ensures { NamedPushed version nodes.now named.now strings.now
        id count base depth work.old work.new (refusal_in result) }
{
    for j in 0..count {
        named_rule(nodes, named, strings, id, start, j, version)?;
        let entry = image::text_entry(named, start + j);
        work[base + depth + j] = entry.value;
    }
    Ok(())
}

// Tests and pushes the entries of node `id`: ordered children, then named ones; answers the depth of the stack. A node that is no container
// has none.
fn enter(
    nodes: &[u8],
    children: &[u8],
    named: &[u8],
    strings: &[u8],
    id: usize,
    work: &mut [u32],
    base: usize,
    depth: usize,
    version: u32,
) -> Result<usize, Refusal>
    requires fit { Fit (parts_of version nodes.now children.now named.now strings.now) }
    requires id_bound { id < node_count (parts_of version nodes.now children.now named.now strings.now) }
    requires id_in_bounds { base + depth + length (reverse (entry_nodes (parts_of version nodes.now children.now named.now strings.now) id)) ≤ length work.old }
    ensures { let s = parts_of version nodes.now children.now named.now strings.now in
        NodeEntered s id base depth work.old work.new (refusal_in result) (value_in result) }
{
    let node = image::node_record(nodes, version, id);
    if node.tag != tag::CONTAINER {
        return Ok(depth);
    }
    let start = node.f3 as usize;
    let ordered = node.f4 as usize;
    push_children(
        nodes, children, id, start, ordered, work, base, depth, version,
    )?;
    let start = node.f5 as usize;
    let count = node.f6 as usize;
    let top = depth + ordered;
    push_named(
        nodes, named, strings, id, start, count, work, base, top, version,
    )?;
    Ok(top + count)
}

// Zero for the first n words.
pub fn clear(work: &mut [u32], n: usize)
    requires { n ≤ length work.old }
    ensures { work.new ≡ replicate n 0 ++ drop n work.old }
{
    for i in 0..n {
        work[i] = 0;
    }
}

// Whether none of the first n words is 0.
pub fn all_marked(work: &[u32], n: usize) -> bool
    requires { n ≤ length work.now }
    ensures { result ≡ all_of n (marked work.now) }
{
    for i in 0..n {
        if work[i] == 0 {
            return false;
        }
    }
    true
}

// The walk from the root, newest entry first: marks in the first `count` words, which are 0, and the stack behind them.
// A `while`: the stack grows as it is walked.
fn walk(
    nodes: &[u8],
    children: &[u8],
    named: &[u8],
    strings: &[u8],
    work: &mut [u32],
    count: usize,
    version: u32,
) -> Result<(), Refusal>
    requires fit { Fit (parts_of version nodes.now children.now named.now strings.now) }
    requires count_value { count ≡ node_count (parts_of version nodes.now children.now named.now strings.now) }
    requires strings_in_bounds { tree_words (parts_of version nodes.now children.now named.now strings.now) ≤ length work.old }
    requires by_index { (i : ℕ) → i < count → get_or work.old i 0 ≡ 0 }
    ensures { let s = parts_of version nodes.now children.now named.now strings.now in
        LoadWalkResult s work.old work.new (refusal_in result) }
{
    work[count] = 0;
    let mut depth = 1;
    while 0 < depth {
        depth -= 1;
        let id = work[count + depth] as usize;
        if work[id] == 0 {
            work[id] = 1;
            depth = enter(
                nodes, children, named, strings, id, work, count, depth, version,
            )?;
        }
    }
    Ok(())
}

// Rows 14 (with 9 for a named target) and 15 of sections whose record rules have passed. The words that it needs are not zero afterwards.
pub fn tree_rule(
    nodes: &[u8],
    children: &[u8],
    named: &[u8],
    strings: &[u8],
    work: &mut [u32],
    version: u32,
) -> Result<(), Refusal>
    requires fit { Fit (parts_of version nodes.now children.now named.now strings.now) }
    requires strings_in_bounds { tree_words (parts_of version nodes.now children.now named.now strings.now) ≤ length work.old }
    ensures answer { refusal_in result ≡ tree_rule (parts_of version nodes.now children.now named.now strings.now) }
    ensures rest { let s = parts_of version nodes.now children.now named.now strings.now in
        drop (tree_words s) work.new ≡ drop (tree_words s) work.old }
{
    let count = image::node_count(nodes, version);
    clear(work, count);
    walk(nodes, children, named, strings, work, count, version)?;
    if all_marked(work, count) {
        Ok(())
    } else {
        Err(Refusal::Unreached)
    }
}
