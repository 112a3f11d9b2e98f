// The paths lent beside a draft: the entries of the list, the entry of a node, and the nodes that follow a path.
ghost use Rattle.std.specs.Prelude.{◌≡◌, ◌&&◌, ◌||◌, not, ℕ, ◌+◌, ◌/◌, ◌%◌, ◌≤◌, ◌<◌, length, ltb, eqb};
ghost use Rattle.laws.specs.Counted.{all_of};
ghost use Rattle.image.specs.Sections.{absent};
ghost use Rattle.records.specs.Flags.{external};
ghost use Rattle.draft.specs.PathList.{path_count, path_origin, listed, new_origin, list_right, may_follow};
ghost use Rattle.draft.specs.PathEntries.{path_entry, paths_rise, Hinted, entry_right};
ghost use Rattle.draft.specs.PathWindows.{window_nodes, window_words, marked, Marks, Windowed, Ready, once_within, mask_in};

use image::{NONE, NodeRecord, tag};

// Words an entry.
pub const PATH_ENTRY_WORDS: usize = 4;

// Nodes of a window: a bit for each in so many words. It is of fixed size, and a list may be longer: no heap is used.
const WINDOW_NODES: usize = 32768;

pub const WINDOW_WORDS: usize = 1024;

// An entry of the list: the node whose path it is, 0 for an absolute path or 1 for a relative one, the first component, how many components.
#[derive(Clone, Copy)]
pub struct PathEntry {
    pub node: u32,
    pub relative: u32,
    pub first: u32,
    pub count: u32,
}

// Whether the nodes of the entries rise; if they do, the first entry that is not of an earlier node.
#[derive(Clone, Copy)]
pub struct Hint {
    pub rises: bool,
    pub next: usize,
}

// How many entries there are.
pub fn path_count(entries: &[u32]) -> usize
    ensures { result ≡ path_count entries.now }
{
    entries.len() / PATH_ENTRY_WORDS
}

// Entry `k`.
// Four words as for `source::definition_at`, but those of another record.
pub fn entry_at(entries: &[u32], k: usize) -> PathEntry
    requires { k < path_count entries.now }
    ensures { result ≡ path_entry entries.now k }
{
    let at = k * PATH_ENTRY_WORDS;
    PathEntry {
        node: entries[at],
        relative: entries[at + 1],
        first: entries[at + 2],
        count: entries[at + 3],
    }
}

// The node whose path entry `k` is.
fn origin_at(entries: &[u32], k: usize) -> u32
    requires { k < path_count entries.now }
    ensures { result ≡ path_origin entries.now k }
{
    entries[k * PATH_ENTRY_WORDS]
}

// Whether each entry is of a node above that of the entry before it.
fn paths_rise(entries: &[u32]) -> bool
    ensures { result ≡ paths_rise entries.now }
{
    (1..path_count(entries)).all(|k| origin_at(entries, k - 1) < origin_at(entries, k))
}

// The hint for node 0.
pub fn first_hint(entries: &[u32]) -> Hint
    ensures { Hinted entries.now 0 result }
{
    Hint {
        rises: paths_rise(entries),
        next: 0,
    }
}

// Whether there is an entry `k`, and it is of node `i`.
fn is_of(entries: &[u32], k: usize, i: usize) -> bool
    ensures { result ≡ (ltb k (path_count entries.now) && eqb (path_origin entries.now k) i) }
{
    if k < path_count(entries) {
        origin_at(entries, k) as usize == i
    } else {
        false
    }
}

// The bit of a node in its word, where the node is one of the window of this number; else none.
fn mask_in(number: usize, node: u32) -> u32
    ensures { result ≡ mask_in number node }
{
    if node as usize / WINDOW_NODES == number {
        1 << (node % 32)
    } else {
        0
    }
}

// Marks a node, if it is one of the window of this number; 0 if it is none of them, or was not marked.
fn mark(window: &mut [u32], number: usize, node: u32) -> u32
    requires { window_words ≤ length window.old }
    ensures result_value { eqb result 0 ≡ not (eqb (node / window_nodes) number && marked window.old node) }
    ensures by_index { (i : ℕ) → i / window_nodes ≡ number → marked window.new i ≡ (marked window.old i || eqb node i) }
{
    let mask = mask_in(number, node);
    let at = node as usize % WINDOW_NODES / 32;
    let word = window[at];
    window[at] = word | mask;
    word & mask
}

// Marks those nodes of the window of this number that have an entry; whether none of them has two.
fn fill_window(entries: &[u32], number: usize, window: &mut [u32; WINDOW_WORDS]) -> bool
    ensures value { result ≡ once_within number entries.now }
    ensures marks { Marks entries.now number window.new }
{
    tree::clear(window, WINDOW_WORDS);
    let count = path_count(entries);
    let mut twice = 0;
    for k in 0..count {
        twice = twice | mark(window, number, origin_at(entries, k));
    }
    twice == 0
}

// The window for node `i`: where the nodes of the list do not rise, it is filled at its first node.
pub fn window_for(entries: &[u32], i: usize, rises: bool, window: &mut [u32; WINDOW_WORDS])
    requires { Ready entries.now i rises window.old }
    ensures { Windowed entries.now i rises window.new }
{
    if rises {
        return;
    }
    if i % WINDOW_NODES == 0 {
        fill_window(entries, i / WINDOW_NODES, window);
    }
}

// Whether node `i` is marked in the window that has it.
fn is_marked(window: &[u32; WINDOW_WORDS], i: usize) -> bool
    ensures { result ≡ marked window.now i }
{
    (window[i % WINDOW_NODES / 32] >> (i % 32)) % 2 == 1
}

// Whether node `i` has an entry: where the nodes rise, the hinted one or none.
fn is_listed(entries: &[u32], i: usize, hint: Hint, window: &[u32; WINDOW_WORDS]) -> bool
    requires { Hinted entries.now i hint × Windowed entries.now i hint.rises window.now }
    ensures { result ≡ listed entries.now i }
{
    if hint.rises {
        is_of(entries, hint.next, i)
    } else {
        is_marked(window, i)
    }
}

// Where the hint for the node after node `i` points, from that for node `i`.
pub fn next_hint(entries: &[u32], i: usize, hint: Hint) -> usize
    requires { Hinted entries.now i hint }
    ensures { Hinted entries.now (i + 1) (record { rises = hint.rises; next = result }) }
{
    if !hint.rises {
        return hint.next;
    }
    if is_of(entries, hint.next, i) {
        hint.next + 1
    } else {
        hint.next
    }
}

// Whether a divert is neither external nor by variable.
fn is_plain(node: NodeRecord) -> bool
    ensures { result ≡ (not (external node) && absent node.f3 node.f4) }
{
    if node.f6 / 2 % 2 != 0 {
        return false;
    }
    if node.f3 != NONE {
        return false;
    }
    node.f4 == NONE
}

// Whether a node of such a record follows its path, if the list has one.
pub fn may_follow(node: NodeRecord) -> bool
    ensures { result ≡ may_follow node }
{
    let node_tag = node.tag;
    match node_tag {
        tag::CHOICE | tag::TARGET_VALUE | tag::REFERENCE => true,
        tag::DIVERT => is_plain(node),
        _ => false,
    }
}

// Whether node `i`, of which the record is, follows a path of the list.
pub fn follows(
    entries: &[u32],
    i: usize,
    hint: Hint,
    window: &[u32; WINDOW_WORDS],
    node: NodeRecord,
) -> bool
    requires { Hinted entries.now i hint × Windowed entries.now i hint.rises window.now }
    ensures { result ≡ (listed entries.now i && may_follow node) }
{
    if is_listed(entries, i, hint, window) {
        may_follow(node)
    } else {
        false
    }
}

// Whether no two entries are of one node, where all are of nodes below `nodes`: window by window.
fn none_twice(entries: &[u32], nodes: usize) -> bool
    requires { (k : ℕ) → k < path_count entries.now → path_origin entries.now k < nodes }
    ensures { result ≡ all_of (path_count entries.now) (new_origin entries.now) }
{
    let mut window = [0; WINDOW_WORDS];
    let windows = nodes / WINDOW_NODES + 1;
    for number in 0..windows {
        if !fill_window(entries, number, &mut window) {
            return false;
        }
    }
    true
}

// Whether entry `k` is right among so many nodes and components, whatever the others are.
fn entry_right(entries: &[u32], nodes: usize, components: usize, k: usize) -> bool
    requires { k < path_count entries.now }
    ensures { result ≡ entry_right nodes components entries.now k }
{
    let entry = entry_at(entries, k);
    if !image::is_inside(nodes, entry.node) {
        return false;
    }
    if 1 < entry.relative {
        return false;
    }
    entry.first as usize + entry.count as usize <= components
}

// Whether the list is whole entries, each right, among so many nodes and components. More entries than nodes name one twice, or one outside.
pub fn list_right(entries: &[u32], nodes: usize, components: usize) -> bool
    ensures { result ≡ list_right nodes components entries.now }
{
    if entries.len() % PATH_ENTRY_WORDS != 0 {
        return false;
    }
    let count = path_count(entries);
    if nodes < count {
        return false;
    }
    for k in 0..count {
        if !entry_right(entries, nodes, components, k) {
            return false;
        }
    }
    if paths_rise(entries) {
        return true;
    }
    none_twice(entries, nodes)
}
