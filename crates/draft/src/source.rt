// A draft's words, nodes and entries. The writer reads a draft's tables and payload by these functions alone; its texts are parts of the strings.
ghost use Rattle.std.specs.Prelude.{◌≡◌, [], ℕ, ◌+◌, ◌*◌, ◌/◌, ◌≤◌, ◌<◌, length, get_or};
ghost use Rattle.words.specs.Words.{word_at, word_in};
ghost use Rattle.image.specs.Sections.{common_words, node_words, text_entry_words, definition_words};
ghost use Rattle.image.specs.Entries.{record_of, text_entry_of, definition_of};
ghost use Rattle.records.specs.Shown.{tag_in};
ghost use Rattle.draft.specs.Source.{draft_of, word_of, path_node};

use image::{Definition, ImageView, NodeRecord, TextEntry};

// How the words of a draft are to be read: the format version decides how many of them a node has.
#[derive(Clone, Copy)]
pub struct Source {
    pub version: u32,
}

// A draft, as it is lent: the words of its nodes, ordered children, named children, definitions and items, then payload and strings.
#[derive(Clone, Copy)]
pub struct Draft<'d> {
    pub nodes: &'d [u32],
    pub children: &'d [u32],
    pub named: &'d [u32],
    pub definitions: &'d [u32],
    pub items: &'d [u32],
    pub payload: &'d [u8],
    pub strings: &'d [u8],
}

// A word: 0 past the end.
pub fn word(words: &[u32], i: usize) -> u32
    ensures { result ≡ get_or words.now i 0 }
{
    if i < words.len() { words[i] } else { 0 }
}

// Words a node.
pub fn node_words(source: Source) -> usize
    ensures { result ≡ node_words source.version }
{
    image::node_size(source.version) as usize / ImageView::WORD_BYTES
}

// How many nodes there are.
pub fn node_count(nodes: &[u32], source: Source) -> usize
    ensures { result ≡ length nodes.now / node_words source.version }
{
    nodes.len() / node_words(source)
}

// The first word of node `i`.
fn first_word(i: usize, source: Source) -> usize
    requires { i * node_words source.version ≤ 18446744073709551615 }
    ensures { result ≡ i * node_words source.version }
{
    i * node_words(source)
}

// Word `k` of node `i`.
pub fn node_word(nodes: &[u32], i: usize, k: usize, source: Source) -> u32
    requires { (i < length nodes.now / node_words source.version) × (k < node_words source.version) }
    ensures { result ≡ get_or nodes.now (i * node_words source.version + k) 0 }
{
    nodes[first_word(i, source) + k]
}

// Word `k` of the node that a word names: 0 past the end.
pub fn word_of(nodes: &[u32], n: u32, k: usize, source: Source) -> u32
    requires { k < common_words }
    ensures { result ≡ word_of source.version nodes.now n k }
{
    word(nodes, first_word(n as usize, source) + k)
}

// What a path needs of a node: its parent, its place and its name.
#[derive(Clone, Copy)]
pub struct PathNode {
    pub parent: u32,
    pub place: u32,
    pub offset: u32,
    pub len: u32,
}

// That of the node that a word names: 0 past the end. One test serves the four words of a node that is there.
pub fn path_node(nodes: &[u32], n: u32, source: Source) -> PathNode
    ensures { result ≡ path_node source.version nodes.now n }
{
    let at = first_word(n as usize, source);
    if at + NodeRecord::F1 < nodes.len() {
        return PathNode {
            parent: nodes[at],
            place: nodes[at + NodeRecord::PLACE],
            offset: nodes[at + NodeRecord::F0],
            len: nodes[at + NodeRecord::F1],
        };
    }
    PathNode {
        parent: word_of(nodes, n, NodeRecord::PARENT, source),
        place: word_of(nodes, n, NodeRecord::PLACE, source),
        offset: word_of(nodes, n, NodeRecord::F0, source),
        len: word_of(nodes, n, NodeRecord::F1, source),
    }
}

// The node whose words begin at `at`.
fn record_at(nodes: &[u32], at: usize) -> NodeRecord
    requires { at + common_words ≤ length nodes.now }
    ensures { (version i : ℕ) → at ≡ i * node_words version → result ≡ record_of version nodes.now i }
{
    NodeRecord {
        parent: nodes[at],
        place: nodes[at + NodeRecord::PLACE],
        tag: nodes[at + NodeRecord::TAG],
        f0: nodes[at + NodeRecord::F0],
        f1: nodes[at + NodeRecord::F1],
        f2: nodes[at + NodeRecord::F2],
        f3: nodes[at + NodeRecord::F3],
        f4: nodes[at + NodeRecord::F4],
        f5: nodes[at + NodeRecord::F5],
        f6: nodes[at + NodeRecord::F6],
    }
}

// Node `i`.
pub fn node_at(nodes: &[u32], i: usize, source: Source) -> NodeRecord
    requires { i < length nodes.now / node_words source.version }
    ensures { result ≡ record_of source.version nodes.now i }
{
    record_at(nodes, first_word(i, source))
}

// The word at byte `at` of the payload.
pub fn payload_word(payload: &[u8], at: usize) -> u32
    requires { at + 4 ≤ length payload.now }
    ensures { result ≡ word_at payload.now at }
{
    words::word(payload, at)
}

// The same: 0 past the end.
pub fn payload_get(payload: &[u8], at: usize) -> u32
    ensures { result ≡ word_in payload.now at }
{
    words::get(payload, at)
}

// Entry `j` of the words of the named entries or the items.
pub fn entry_at(entries: &[u32], j: usize) -> TextEntry
    requires { j * text_entry_words + text_entry_words ≤ length entries.now }
    ensures { result ≡ text_entry_of entries.now j }
{
    let at = j * ImageView::TEXT_ENTRY_WORDS;
    TextEntry {
        offset: entries[at],
        len: entries[at + 1],
        value: entries[at + 2],
    }
}

// Definition `j` of the definitions' words.
pub fn definition_at(definitions: &[u32], j: usize) -> Definition
    requires { j * definition_words + definition_words ≤ length definitions.now }
    ensures { result ≡ definition_of definitions.now j }
{
    let at = j * ImageView::DEFINITION_WORDS;
    Definition {
        offset: definitions[at],
        len: definitions[at + 1],
        first: definitions[at + 2],
        count: definitions[at + 3],
    }
}

// The tag of node `n`, 0 where there is no such node.
pub fn tag_at(nodes: &[u32], n: u32, source: Source) -> u32
    ensures { result ≡ tag_in (draft_of source.version nodes.now [] [] [] [] [] []) n }
{
    if image::is_inside(node_count(nodes, source), n) {
        node_word(nodes, n as usize, NodeRecord::TAG, source)
    } else {
        0
    }
}
