// Canonical paths and the path index.
// The work words are lent by C's caller: no heap is used.
#![tactic(auto)]

ghost use Rattle.std.specs.Prelude.{◌≡◌, [], ℕ, ◌+◌, ◌*◌, ◌≤◌, ◌<◌, length, drop};
ghost use Rattle.image.specs.Refusals.{refusal_in};
ghost use Rattle.texts.specs.Text.{same};
ghost use Rattle.words.specs.Words.{words_of};
ghost use Rattle.image.specs.Sections.{text_entry_size, node_count};
ghost use Rattle.image.specs.Entries.{text_entry_of};
ghost use Rattle.tree.specs.Reach.{AllClimb};
ghost use Rattle.index.specs.Paths.{no_name, piece_of, name_or_place, fits};
ghost use Rattle.index.specs.Index.{index_entry_rule, index_rule};
ghost use Rattle.index.specs.Parts.{index_parts, path_node_of};
ghost use Rattle.index.specs.Extended.{Tested, word_values, Filed, parent_entry, extends_by, extended_entry};

use image::refusal::Refusal;
use image::{ImageView, NodeRecord, TextEntry, order};

// How many values a word has.
const WORD_VALUES: usize = 4294967296;

// What a path needs of a node: its parent, its place and its name.
#[derive(Clone, Copy)]
struct PathNode {
    parent: u32,
    place: u32,
    offset: u32,
    len: u32,
}

// The node at `at`; past the last one its words are 0.
fn path_node(nodes: &[u8], at: u32, version: u32) -> PathNode
    ensures { result ≡ path_node_of (index_parts version nodes.now [] []) at }
{
    PathNode {
        parent: image::node_word_or_zero(nodes, version, at, NodeRecord::PARENT),
        place: image::node_word_or_zero(nodes, version, at, NodeRecord::PLACE),
        offset: image::node_word_or_zero(nodes, version, at, NodeRecord::F0),
        len: image::node_word_or_zero(nodes, version, at, NodeRecord::F1),
    }
}

// Whether a name is absent or empty.
pub fn no_name(offset: u32, len: u32) -> bool
    ensures { result ≡ no_name offset len }
{
    if len == 0 {
        return true;
    }
    if len == image::NONE {
        offset == image::NONE
    } else {
        false
    }
}

// How long a node's piece of a path is.
fn piece_len(strings: &[u8], node: PathNode) -> usize
    ensures { result ≡ length (piece_of strings.now node.place node.offset node.len) }
{
    if no_name(node.offset, node.len) {
        return texts::decimal_len(node.place);
    }
    image::text_bytes(strings, node.offset, node.len).len()
}

// Whether a text is a node's piece of a path.
fn is_piece(strings: &[u8], node: PathNode, text: &[u8]) -> bool
    ensures { result ≡ same text.now (piece_of strings.now node.place node.offset node.len) }
{
    if no_name(node.offset, node.len) {
        return texts::is_decimal(text, node.place);
    }
    texts::equal(text, image::text_bytes(strings, node.offset, node.len))
}

// Whether node `at` has a name or a place: it is not a nameless one of place NONE.
fn has_name_or_place(nodes: &[u8], at: u32, version: u32) -> bool
    ensures { result ≡ name_or_place (index_parts version nodes.now [] []) at }
{
    let node = path_node(nodes, at, version);
    if node.place != image::NONE {
        return true;
    }
    !no_name(node.offset, node.len)
}

// Whether the text is the canonical path of a node, and the node and all on the way to it, the root excepted, have a name or a place.
// It is compared from its end on, up to the root, so no path is built.
// A `while`: the way goes up the tree.
fn matches_canonical_path(nodes: &[u8], strings: &[u8], id: u32, text: &[u8], version: u32) -> bool
    ensures { result ≡ fits (index_parts version nodes.now [] strings.now) id text.now }
{
    let mut steps = image::node_count(nodes, version);
    let mut at = id;
    let mut end = text.len();
    while at != 0 {
        if steps == 0 {
            return end == 0;
        }
        steps -= 1;
        if !has_name_or_place(nodes, at, version) {
            return false;
        }
        let node = path_node(nodes, at, version);
        let size = piece_len(strings, node);
        if end < size {
            return false;
        }
        let start = end - size;
        if !is_piece(strings, node, &text[start..end]) {
            return false;
        }
        if node.parent == 0 {
            return start == 0;
        }
        if start == 0 {
            return false;
        }
        end = start - 1;
        if text[end] != b'.' {
            return false;
        }
        at = node.parent;
    }
    end == 0
}

// The refusal of index entry `j`.
fn index_entry_rule(
    nodes: &[u8],
    index: &[u8],
    strings: &[u8],
    j: usize,
    version: u32,
) -> Result<(), Refusal>
    requires { text_entry_size * j + text_entry_size ≤ length index.now }
    ensures { refusal_in result ≡ index_entry_rule (index_parts version nodes.now index.now strings.now) j }
{
    let entry = image::text_entry(index, j);
    if !image::good_text(strings, entry.offset, entry.len) {
        return Err(Refusal::BadText);
    }
    if !tree::is_container(nodes, entry.value, version) {
        return Err(Refusal::BadNode);
    }
    if !order::entry_rises(index, strings, 0, j) {
        return Err(Refusal::BadIndex);
    }
    if matches_canonical_path(
        nodes,
        strings,
        entry.value,
        image::text_bytes(strings, entry.offset, entry.len),
        version,
    ) {
        Ok(())
    } else {
        Err(Refusal::BadIndex)
    }
}

// The entry before `j` whose target is `parent`, where there is one, else `j`: the parent's work word holds its number. (A word holds no number
// from 4294967296 on; entries from there on are not found.)
fn parent_entry(index: &[u8], work: &[u32], parent: u32, j: usize) -> usize
    requires j_in_bounds { text_entry_size * j ≤ length index.now }
    requires filed { Filed (words_of index.now) work.now j }
    ensures answer { result ≡ parent_entry (words_of index.now) work.now parent j }
    ensures found { (k : ℕ) → k < j → k < word_values → (text_entry_of (words_of index.now) k).value ≡ parent → result ≡ k }
{
    let at = parent as usize;
    if work.len() <= at {
        return j;
    }
    let k = work[at] as usize;
    if j <= k {
        return j;
    }
    let above = image::text_entry(index, k);
    if above.value == parent { k } else { j }
}

// Whether the text of an entry is that of the entry `above`, a dot and the piece of a node, and good from the dot on.
fn extends(strings: &[u8], above: TextEntry, entry: TextEntry, node: PathNode) -> bool
    ensures { result ≡ extends_by strings.now above entry node }
{
    if entry.offset == image::NONE {
        return false;
    }
    if entry.len == image::NONE {
        return false;
    }
    let text = image::text_part(strings, entry.offset, entry.len);
    let size = above.len as usize;
    if text.len() <= size {
        return false;
    }
    if text[size] != b'.' {
        return false;
    }
    if !is_piece(strings, node, &text[size + 1..]) {
        return false;
    }
    if !image::good_bytes(&text[size + 1..]) {
        return false;
    }
    if above.offset == entry.offset {
        return true;
    }
    texts::equal(
        &text[..size],
        image::text_bytes(strings, above.offset, above.len),
    )
}

// The entry of the parent of entry `j`'s target, where it comes before `j` and shows that entry `j`'s text is good and fits, else `j`: the plain
// test decides then.
fn extended_entry(
    nodes: &[u8],
    index: &[u8],
    strings: &[u8],
    work: &[u32],
    j: usize,
    version: u32,
) -> usize
    requires text_entry_size_in_bounds { text_entry_size * j + text_entry_size ≤ length index.now }
    requires filed { Filed (words_of index.now) work.now j }
    ensures { result ≡ extended_entry (index_parts version nodes.now index.now strings.now) work.now j }
{
    let entry = image::text_entry(index, j);
    if entry.value == 0 {
        return j;
    }
    if !tree::is_container(nodes, entry.value, version) {
        return j;
    }
    if !has_name_or_place(nodes, entry.value, version) {
        return j;
    }
    let node = path_node(nodes, entry.value, version);
    let parent = node.parent;
    if parent == 0 {
        return j;
    }
    let k = parent_entry(index, work, parent, j);
    if j <= k {
        return j;
    }
    if extends(strings, image::text_entry(index, k), entry, node) {
        k
    } else {
        j
    }
}

// The refusal of index entry `j`, where no entry before it is refused. Its text is compared with that of its target's parent, if the work
// words hold the number of the parent's entry.
fn next_entry_rule(
    nodes: &[u8],
    index: &[u8],
    strings: &[u8],
    work: &[u32],
    j: usize,
    version: u32,
) -> Result<(), Refusal>
    requires text_entry_size_in_bounds { text_entry_size * j + text_entry_size ≤ length index.now }
    requires tested { Tested (index_parts version nodes.now index.now strings.now) j }
    requires filed { Filed (words_of index.now) work.now j }
    ensures { refusal_in result ≡ index_entry_rule (index_parts version nodes.now index.now strings.now) j }
{
    let k = extended_entry(nodes, index, strings, work, j, version);
    if j <= k {
        return index_entry_rule(nodes, index, strings, j, version);
    }
    if k + 1 == j {
        return Ok(());
    }
    if order::entry_rises(index, strings, 0, j) {
        Ok(())
    } else {
        Err(Refusal::BadIndex)
    }
}

// The first refusal of an entry of the index. The work words of the nodes serve to find a parent's entry; what they hold afterwards is open.
pub fn index_rule(
    nodes: &[u8],
    index: &[u8],
    strings: &[u8],
    work: &mut [u32],
    version: u32,
) -> Result<(), Refusal>
    requires all_climb { AllClimb (index_parts version nodes.now [] []) }
    requires nodes_in_bounds { node_count (index_parts version nodes.now [] []) ≤ length work.old }
    ensures answer { refusal_in result ≡ index_rule (index_parts version nodes.now index.now strings.now) }
    ensures rest { let n = node_count (index_parts version nodes.now [] []) in
        drop n work.new ≡ drop n work.old }
{
    let count = index.len() / ImageView::TEXT_ENTRY_BYTES;
    for j in 0..count {
        next_entry_rule(nodes, index, strings, work, j, version)?;
        let entry = image::text_entry(index, j);
        work[entry.value as usize] = (j % WORD_VALUES) as u32;
    }
    Ok(())
}
