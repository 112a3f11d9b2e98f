// The paths of a draft's containers (rule 22): listed in the image's order, measured, and sorted by text.
// The work words are lent by C's caller: no heap is used.
#![tactic(auto)]

pub mod path_index; // path_index.rt: section 5

ghost use Rattle.std.specs.Prelude.{◌≡◌, List, ◌∷◌, [], ℕ, ◌+◌, ◌/◌, ◌≤◌, ◌<◌, length, get_or};
ghost use Rattle.std.proofs.lemmas.List.Edits.{sets};
ghost use Rattle.laws.specs.Counted.{all_of, join_of};
ghost use Rattle.image.specs.Refusals.{numbered};
ghost use Rattle.image.specs.Sections.{Sections, node_words, node_count};
ghost use Rattle.draft.specs.Draft.{placed};
ghost use Rattle.texts.specs.Text.{rising};
ghost use Rattle.write_text_keys.specs.Keys.{key_in, length_from, Placed};
ghost use Rattle.write_paths.specs.Listed.{containers_in, placed_in, ParentsFirst};
ghost use Rattle.write_paths.specs.Arranged.{Measured, Arranged, Rooted, Indexes};
ghost use Rattle.draft_image.specs.Ready.{OldsAt};

use draft::layout::Layout;
use draft::source;
use draft::source::Source;
use image::refusal::Refusal;
use image::tag::CONTAINER;
use image::{NONE, NodeRecord};

// Whether node `i` is the root, no container, or a container that has a name or a place.
#[tactic(auto, unfolding(crate::specs::Listed::placed_in))]
fn is_placed(node: NodeRecord, i: usize) -> bool
    ensures { result ≡ placed_in node i }
{
    node.tag != CONTAINER || i == 0 || !index::no_name(node.f0, node.f1) || node.place != NONE
}

// Whether each of the nodes is so.
fn all_placed(nodes: &[u32], count: usize, source: Source) -> bool
    requires { count ≤ length nodes.now / node_words source.version }
    ensures { (s : Sections) → s.nodes ≡ nodes.now → s.version ≡ source.version → result ≡ all_of count (placed s) }
{
    (0..count).all(|i| is_placed(source::node_at(nodes, i, source), i))
}

// Lists the containers among the `count` nodes whose numbers stand from `order` on; the list begins at `paths`. How many they are.
fn list_containers(
    nodes: &[u32],
    w: &mut [u32],
    order: usize,
    count: usize,
    paths: usize,
    source: Source,
) -> usize
    requires { (paths + count ≤ order) × (order + count ≤ length w.old) }
    ensures answer { result ≡ length (containers_in source.version nodes.now w.old order count) }
    ensures words { let found = containers_in source.version nodes.now w.old order count in
        w.new ≡ sets w.old paths found }
{
    let mut found = 0;
    for j in 0..count {
        let node = source::word(w, order + j);
        if source::word_of(nodes, node, NodeRecord::TAG, source) == CONTAINER {
            w[paths + found] = node;
            found += 1;
        }
    }
    found
}

// Puts behind the first `count` words, for each, the word of the list at `list` that it names.
fn gather(w: &mut [u32], count: usize, list: usize)
    requires { (count + count ≤ list) × (list ≤ length w.old) }
    ensures { let w₀ = w.old in w.new ≡ sets w₀ count (join_of count (λ i. get_or w₀ (list + get_or w₀ i 0) 0 ∷ [])) }
{
    for i in 0..count {
        let at = source::word(w, i) as usize;
        w[count + i] = source::word(w, list + at);
    }
}

// Measures the paths of the nodes that a list has, parents first: each length goes into two words at the node's place of a table.
fn measure(
    nodes: &[u32],
    w: &mut [u32],
    list: usize,
    found: usize,
    table: usize,
    count: usize,
    source: Source,
)
    requires found_bound { (list + found ≤ table) × (table + count + count ≤ length w.old) × (found ≤ count) × (count ≤ 4294967295) }
    requires by_index { (k : ℕ) → k < found → get_or w.old (list + k) 0 < count }
    requires parents_first { ParentsFirst source.version nodes.now w.old list found }
    ensures { let size = length_from count source.version nodes.now in
        Measured w.old list found table count size w.new found }
{
    for i in 0..found {
        let node = source::word(w, list + i);
        let len = write_text_keys::path_length(nodes, w, table, node, source);
        let at = table + node as usize + node as usize;
        w[at] = (len % 4294967296) as u32;
        w[at + 1] = (len / 4294967296) as u32;
    }
}

// Whether the texts of the first n words rise.
fn rises(nodes: &[u32], strings: &[u8], w: &[u32], layout: Layout, n: usize, source: Source) -> bool
    requires { (n ≤ length w.now) × Placed layout (length w.now) }
    ensures { let key = key_in source.version nodes.now strings.now layout w.now in
        result ≡ all_of n (rising (λ i. key (get_or w.now i 0))) }
{
    (1..n).all(|i| write_text_keys::below(nodes, strings, w, layout, w[i - 1], w[i], source))
}

// Sorts the list of `found` nodes by their paths, which are measured; or says that two have one path.
fn sort_list(
    nodes: &[u32],
    strings: &[u8],
    w: &mut [u32],
    layout: Layout,
    found: usize,
    source: Source,
) -> bool
    requires { (found + found ≤ layout.at) × (layout.at + layout.paths + found ≤ length w.old)
        × (layout.at + layout.lengths ≤ length w.old) × (found ≤ 4294967295) }
    ensures { let key = key_in source.version nodes.now strings.now layout w.old in
        Arranged key w.old (layout.at + layout.paths) found w.new result }
{
    write_sorting::number(w, 0, found);
    write_sorting::sort(nodes, strings, w, layout, found, source);
    if !rises(nodes, strings, w, layout, found, source) {
        return false;
    }
    let list = layout.at + layout.paths;
    gather(w, found, list);
    w.copy_within(found..found + found, list);
    true
}

// Lists the containers among the nodes by their paths.
pub fn sort_paths(
    nodes: &[u32],
    strings: &[u8],
    w: &mut [u32],
    layout: Layout,
    count: usize,
    source: Source,
) -> Result<usize, Refusal>
    requires count_bound { (count + count ≤ layout.at) × (layout.paths + count ≤ layout.lengths)
        × (layout.at + layout.lengths + count + count ≤ layout.order) × (layout.order + count ≤ length w.old) }
    requires texts_value { (layout.texts ≡ 0) × (count ≤ length nodes.now / node_words source.version) × (count ≤ 4294967295) }
    requires by_index { ((j : ℕ) → j < count → get_or w.old (layout.order + j) 0 < count)
        × ParentsFirst source.version nodes.now w.old layout.order count }
    ensures { (s : Sections) (olds : List ℕ) → s.nodes ≡ nodes.now → s.strings ≡ strings.now
        → s.version ≡ source.version → node_count s ≡ count → Rooted s olds → OldsAt olds w.old count layout.order
        → Indexes s olds layout w.old w.new (numbered result) }
{
    if !all_placed(nodes, count, source) {
        return Err(Refusal::DraftPaths);
    }
    let list = layout.at + layout.paths;
    let found = list_containers(nodes, w, layout.order, count, list, source);
    measure(
        nodes,
        w,
        list,
        found,
        layout.at + layout.lengths,
        count,
        source,
    );
    if sort_list(nodes, strings, w, layout, found, source) {
        Ok(found)
    } else {
        Err(Refusal::DraftPaths)
    }
}
