// The numbering of a written image: the writer's walk over a draft, depth first in reading order.
// The work words are lent by C's caller: no heap is used.
#![tactic(auto)]

pub mod numbers; // numbers.rt: numbers of nodes in the work words

ghost use Rattle.std.specs.Prelude.{◌≡◌, true, ℕ, ◌+◌, ◌*◌, ◌≤◌, ◌<◌, length, get_or, drop};
ghost use Rattle.image.specs.Sections.{text_entry_words, node_count};
ghost use Rattle.tree.specs.Tree.{entry_nodes, read_walk, all_seen};
ghost use Rattle.tree.specs.Work.{tree_words};
ghost use Rattle.tree.specs.Parts.{Fit};
ghost use Rattle.write_numbering.specs.Work.{tree_of, Leads, Numbered, EntriesPushed, NodeEntered, Read, Marks, NumberTables};

use draft::source;
use draft::source::Source;
use image::ImageView;
use image::tag::CONTAINER;

// Pushes the nodes of `count` entries from `start` on, the last first, so that the first is on top. An entry has `size` words, and word
// `node` of it is its node.
fn push_entries(
    entries: &[u32],
    size: usize,
    node: usize,
    start: usize,
    count: usize,
    work: &mut [u32],
    base: usize,
    depth: usize,
)
    requires entries_in_bounds { (node < size) × ((start + count) * size ≤ length entries.now) }
    requires room { base + depth + count ≤ length work.old }
    ensures { EntriesPushed size node entries.now start count base depth work.old work.new }
{
    for j in 0..count {
        let at = (start + (count - 1 - j)) * size + node;
        work[base + depth + j] = source::word(entries, at);
    }
}

// Pushes the entries of node `id` so that ordered children come before named ones, each in their order. A node that is
// no container has none. The new depth of the stack.
fn enter(
    nodes: &[u32],
    children: &[u32],
    named: &[u32],
    id: usize,
    work: &mut [u32],
    base: usize,
    depth: usize,
    source: Source,
) -> usize
    requires { let s = tree_of source.version nodes.now children.now named.now in
        Fit s × (id < node_count s) × (base + depth + length (entry_nodes s id) ≤ length work.old) }
    ensures { let s = tree_of source.version nodes.now children.now named.now in
        NodeEntered s id base depth work.old work.new result }
{
    let node = source::node_at(nodes, id, source);
    if node.tag != CONTAINER {
        return depth;
    }
    let start = node.f5 as usize;
    let count = node.f6 as usize;
    push_entries(
        named,
        ImageView::TEXT_ENTRY_WORDS,
        2,
        start,
        count,
        work,
        base,
        depth,
    );
    let top = depth + count;
    let start = node.f3 as usize;
    let ordered = node.f4 as usize;
    push_entries(children, 1, 0, start, ordered, work, base, top);
    top + ordered
}

// The walk from the root: marks in the first `count` words, which are 0, and the stack behind them. A node is marked when
// it is taken, with the count of marked nodes.
// A `while`: the stack grows as it is walked.
fn walk(
    nodes: &[u32],
    children: &[u32],
    named: &[u32],
    work: &mut [u32],
    count: usize,
    source: Source,
)
    requires fact { let s = tree_of source.version nodes.now children.now named.now in
        Fit s × Leads s × (count ≡ node_count s) × (tree_words s ≤ length work.old) }
    requires by_index { (i : ℕ) → i < count → get_or work.old i 0 ≡ 0 }
    ensures { let s = tree_of source.version nodes.now children.now named.now in
        Read s work.old work.new }
{
    work[count] = 0;
    let mut depth = 1;
    let mut taken: u32 = 0;
    while 0 < depth {
        depth -= 1;
        let id = work[count + depth] as usize;
        if work[id] == 0 {
            taken += 1;
            work[id] = taken;
            depth = enter(nodes, children, named, id, work, count, depth, source);
        }
    }
}

// From the marks of `count` nodes the node of each mark, from word `base` on, and behind them the number of each node.
fn set_numbers(work: &mut [u32], count: usize, base: usize)
    requires marks { Marks count work.old }
    requires count_le_base { (count ≤ base) × (base + 2 * count ≤ length work.old) }
    ensures { NumberTables count base work.old work.new }
{
    for i in 0..count {
        let number = work[i] - 1;
        work[base + number as usize] = i as u32;
        work[base + count + i] = number;
    }
}

// Numbers the nodes of a draft in the order of the written image. Whether entries lead from the root to every node: then
// from word `base` on stand the draft's numbers of the image's nodes, and behind them the image's numbers of the draft's.
// The words before are not cleared.
pub fn number(
    nodes: &[u32],
    children: &[u32],
    named: &[u32],
    work: &mut [u32],
    base: usize,
    source: Source,
) -> bool
    requires { let s = tree_of source.version nodes.now children.now named.now in
        Fit s × Leads s × (tree_words s ≤ base) × (base + 2 * node_count s ≤ length work.old) }
    ensures answer { let s = tree_of source.version nodes.now children.now named.now in
        result ≡ all_seen s (read_walk s).seen }
    ensures numbers { let s = tree_of source.version nodes.now children.now named.now in
        result ≡ true → Numbered s base work.new }
    ensures rest { let s = tree_of source.version nodes.now children.now named.now in
        drop (base + 2 * node_count s) work.new ≡ drop (base + 2 * node_count s) work.old }
{
    let count = source::node_count(nodes, source);
    tree::clear(work, count);
    walk(nodes, children, named, work, count, source);
    if !tree::all_marked(work, count) {
        return false;
    }
    set_numbers(work, count, base);
    true
}
