// A story image: its header, the sections that the header bounds, and how records are read out of them.
#![tactic(auto)]

ghost use Rattle.std.specs.Prelude.{◌≡◌, true, ◌+◌, ◌*◌, ◌/◌, ◌≤◌, ◌<◌, length, get_or};
ghost use Rattle.words.specs.Words.{words_of};
ghost use Rattle.image.specs.Sections.{node_words, node_size, text_entry_size, definition_size};
ghost use Rattle.image.specs.Sections.{good_in, good_bytes, inside_among, optional_in, part_at, text_or_empty};
ghost use Rattle.image.specs.Header.{section_bytes, sizes, opened_of};
ghost use Rattle.image.specs.Refusals.{numbered};
ghost use Rattle.image.specs.Entries.{record_of, text_entry_of, definition_of};

pub mod encoding;
pub mod header;
pub mod order;
pub mod payload;
pub mod refusal;
pub mod tag;

use crate::refusal::Refusal;

// Where a section begins, in bytes, and how many entries it has.
#[derive(Clone, Copy)]
pub struct Section {
    pub offset: u32,
    pub count: u32,
}

// How many entries each section has; of payload and strings, bytes.
#[derive(Clone, Copy)]
pub struct EntryCounts {
    pub nodes: usize,
    pub children: usize,
    pub named: usize,
    pub definitions: usize,
    pub items: usize,
    pub index: usize,
    pub payload: usize,
    pub strings: usize,
}

// What the header of an image says: the format version, the ink version and the eight sections.
#[derive(Clone, Copy)]
pub struct ImageView {
    pub version: u32,
    pub ink_version: u32,
    pub nodes: Section,
    pub children: Section,
    pub named: Section,
    pub definitions: Section,
    pub items: Section,
    pub index: Section,
    pub payload: Section,
    pub strings: Section,
}

impl ImageView {
    pub const MAGIC: [u8; 8] = *b"BLINKIMG";

    pub const VERSION: u32 = 2;

    // In bytes: the checksum ends the header.
    pub const HEADER_LENGTH: usize = checksum::SKIP_TO;

    // Where the header's words stand behind the magic: of a section, offset and count.
    pub const VERSION_AT: usize = 8;

    pub const INK_VERSION_AT: usize = 12;

    pub const LENGTH_AT: usize = 16;

    pub const SECTIONS_AT: usize = 20;

    pub const CHECKSUM_AT: usize = checksum::SKIP_FROM;

    // The known ink versions: the first and the last.
    pub const FIRST_INK_VERSION: u32 = 18;

    pub const LAST_INK_VERSION: u32 = 21;

    // Words an entry: a node; a named entry, an item or an index entry; a definition.
    const NODE_WORDS: usize = 10;

    pub const TEXT_ENTRY_WORDS: usize = 3;

    pub const DEFINITION_WORDS: usize = 4;

    // Bytes of a word, and of such entries.
    pub const WORD_BYTES: usize = 4;

    const NODE_BYTES: usize = ImageView::WORD_BYTES * ImageView::NODE_WORDS;

    pub const TEXT_ENTRY_BYTES: usize = ImageView::WORD_BYTES * ImageView::TEXT_ENTRY_WORDS;

    pub const DEFINITION_BYTES: usize = ImageView::WORD_BYTES * ImageView::DEFINITION_WORDS;

    // Bytes an entry, by section. A node's goes by the version: `node_size`.
    const NODE_SIZE: u32 = ImageView::NODE_BYTES as u32;

    pub const CHILD_SIZE: u32 = ImageView::WORD_BYTES as u32;

    pub const NAMED_SIZE: u32 = ImageView::TEXT_ENTRY_BYTES as u32;

    pub const DEFINITION_SIZE: u32 = ImageView::DEFINITION_BYTES as u32;

    pub const ITEM_SIZE: u32 = ImageView::TEXT_ENTRY_BYTES as u32;

    pub const INDEX_SIZE: u32 = ImageView::TEXT_ENTRY_BYTES as u32;

    pub const PAYLOAD_SIZE: u32 = 1;

    pub const STRINGS_SIZE: u32 = 1;

    // The view that the header gives, if the header breaks none of rows 1 to 5. The checksum is not asked.
    pub fn new(bytes: &[u8]) -> Result<ImageView, Refusal>
        ensures { numbered result ≡ opened_of bytes.now }
    {
        header::header_rule(bytes)?;
        Ok(header::view_at(bytes))
    }
}

// The words of a node.
#[derive(Clone, Copy)]
pub struct NodeRecord {
    pub parent: u32,
    pub place: u32,
    pub tag: u32,
    pub f0: u32,
    pub f1: u32,
    pub f2: u32,
    pub f3: u32,
    pub f4: u32,
    pub f5: u32,
    pub f6: u32,
}

// Which word of a node is which.
impl NodeRecord {
    pub const PARENT: usize = 0;

    pub const PLACE: usize = 1;

    pub const TAG: usize = 2;

    pub const F0: usize = 3;

    pub const F1: usize = 4;

    pub const F2: usize = 5;

    pub const F3: usize = 6;

    pub const F4: usize = 7;

    pub const F5: usize = 8;

    pub const F6: usize = 9;
}

// An entry of three words: a text, and the node of a named or index entry or the value of an item.
#[derive(Clone, Copy)]
pub struct TextEntry {
    pub offset: u32,
    pub len: u32,
    pub value: u32,
}

// A definition: its text, its first item and how many items it has.
#[derive(Clone, Copy)]
pub struct Definition {
    pub offset: u32,
    pub len: u32,
    pub first: u32,
    pub count: u32,
}

// The word that says that a text or a node is absent.
pub const NONE: u32 = 4294967295;

// The bytes of a section whose entries have the given size; outside the slice a section counts as empty.
pub fn section_part(bytes: &[u8], section: Section, size: u32) -> &[u8]
    ensures { result.now ≡ section_bytes bytes.now section size }
{
    let start = section.offset as usize;
    let end = start + (section.count as usize) * (size as usize);
    if end <= bytes.len() {
        &bytes[start..end]
    } else {
        &bytes[..0]
    }
}

// Word `k` of a section's bytes.
pub fn part_word(part: &[u8], k: usize) -> u32
    requires { 4 * k + 4 ≤ length part.now }
    ensures { result ≡ get_or (words_of part.now) k 0 }
{
    words::word(part, ImageView::WORD_BYTES * k)
}

// Bytes a node of a format version.
pub fn node_size(version: u32) -> u32
    ensures { result ≡ 4 * node_words version }
{
    ImageView::NODE_SIZE
}

// Bytes an entry, by section.
pub fn section_sizes(version: u32) -> [u32; 8]
    ensures { result ≡ sizes version }
{
    [
        node_size(version),
        ImageView::CHILD_SIZE,
        ImageView::NAMED_SIZE,
        ImageView::DEFINITION_SIZE,
        ImageView::ITEM_SIZE,
        ImageView::INDEX_SIZE,
        ImageView::PAYLOAD_SIZE,
        ImageView::STRINGS_SIZE,
    ]
}

// The bytes of a view's nodes.
pub fn nodes_part(bytes: &[u8], view: ImageView) -> &[u8]
    ensures { result.now ≡ section_bytes bytes.now view.nodes (node_size view.version) }
{
    section_part(bytes, view.nodes, node_size(view.version))
}

// How many nodes the nodes' bytes hold.
pub fn node_count(part: &[u8], version: u32) -> usize
    ensures { result ≡ length (words_of part.now) / node_words version }
{
    part.len() / ImageView::NODE_BYTES
}

// The first word of node `i`.
fn first_word(version: u32, i: usize) -> usize
    requires { i * node_words version ≤ 18446744073709551615 }
    ensures { result ≡ i * node_words version }
{
    i * ImageView::NODE_WORDS
}

// Word `k` of node `i` of the nodes' bytes, or 0 past their end.
pub fn node_word_or_zero(part: &[u8], version: u32, i: u32, k: usize) -> u32
    requires { k < node_words version }
    ensures { result ≡ get_or (words_of part.now) (i * node_words version + k) 0 }
{
    words::get(
        part,
        ImageView::WORD_BYTES * (first_word(version, i as usize) + k),
    )
}

// Word `k` of node `i` of the nodes' bytes.
pub fn node_word(part: &[u8], version: u32, i: usize, k: usize) -> u32
    requires { (i < length (words_of part.now) / node_words version) × (k < node_words version) }
    ensures { result ≡ get_or (words_of part.now) (i * node_words version + k) 0 }
{
    part_word(part, first_word(version, i) + k)
}

// Node `i` of the nodes' bytes.
pub fn node_record(part: &[u8], version: u32, i: usize) -> NodeRecord
    requires { i < length (words_of part.now) / node_words version }
    ensures { result ≡ record_of version (words_of part.now) i }
{
    let at = first_word(version, i);
    NodeRecord {
        parent: part_word(part, at),
        place: part_word(part, at + NodeRecord::PLACE),
        tag: part_word(part, at + NodeRecord::TAG),
        f0: part_word(part, at + NodeRecord::F0),
        f1: part_word(part, at + NodeRecord::F1),
        f2: part_word(part, at + NodeRecord::F2),
        f3: part_word(part, at + NodeRecord::F3),
        f4: part_word(part, at + NodeRecord::F4),
        f5: part_word(part, at + NodeRecord::F5),
        f6: part_word(part, at + NodeRecord::F6),
    }
}

// Whether a number is one of so many nodes; NONE never is.
pub fn is_inside(count: usize, n: u32) -> bool
    ensures { result ≡ inside_among count n }
{
    if n == NONE {
        false
    } else {
        (n as usize) < count
    }
}

// Entry `j` of the bytes of the named entries, the items or the index.
pub fn text_entry(part: &[u8], j: usize) -> TextEntry
    requires { text_entry_size * j + text_entry_size ≤ length part.now }
    ensures { result ≡ text_entry_of (words_of part.now) j }
{
    let at = j * ImageView::TEXT_ENTRY_WORDS;
    TextEntry {
        offset: part_word(part, at),
        len: part_word(part, at + 1),
        value: part_word(part, at + 2),
    }
}

// Definition `j` of the definitions' bytes.
pub fn definition_at(part: &[u8], j: usize) -> Definition
    requires { definition_size * j + definition_size ≤ length part.now }
    ensures { result ≡ definition_of (words_of part.now) j }
{
    let at = j * ImageView::DEFINITION_WORDS;
    Definition {
        offset: part_word(part, at),
        len: part_word(part, at + 1),
        first: part_word(part, at + 2),
        count: part_word(part, at + 3),
    }
}

// The bytes of a text, or none where it is not inside the strings. Whether they are UTF-8 is not asked.
pub fn text_part(strings: &[u8], offset: u32, len: u32) -> &[u8]
    ensures { result.now ≡ text_or_empty strings.now offset len }
{
    let start = offset as usize;
    let end = start + len as usize;
    if end <= strings.len() {
        &strings[start..end]
    } else {
        &strings[..0]
    }
}

// The bytes of a text, as far as the strings go.
pub fn text_bytes(strings: &[u8], offset: u32, len: u32) -> &[u8]
    ensures { result.now ≡ part_at strings.now offset len }
{
    let start = offset as usize;
    let end = start + len as usize;
    if end <= strings.len() {
        return &strings[start..end];
    }
    if start <= strings.len() {
        &strings[start..]
    } else {
        &strings[..0]
    }
}

// Whether bytes may be those of a good text: whether they are UTF-8.
pub fn good_bytes(bytes: &[u8]) -> bool
    ensures { result ≡ good_bytes bytes.now }
{
    utf8::valid(bytes)
}

// Whether a text is present, inside the strings and of good bytes.
pub fn good_text(strings: &[u8], offset: u32, len: u32) -> bool
    ensures { result ≡ good_in strings.now offset len }
{
    if offset == NONE {
        return false;
    }
    if len == NONE {
        return false;
    }
    let start = offset as usize;
    let end = start + len as usize;
    if end <= strings.len() {
        good_bytes(&strings[start..end])
    } else {
        false
    }
}

// Whether a text is present, inside the strings, and cuts no sequence of theirs. Nothing is said of a text for which the answer is false.
fn is_uncut(strings: &[u8], offset: u32, len: u32) -> bool
    ensures { result ≡ true → good_bytes strings.now ≡ true → good_in strings.now offset len ≡ true }
{
    if offset == NONE {
        return false;
    }
    if len == NONE {
        return false;
    }
    let start = offset as usize;
    let end = start + len as usize;
    if strings.len() < end {
        return false;
    }
    if utf8::cuts(strings, start) {
        return false;
    }
    !utf8::cuts(strings, end)
}

// The same as `good_text`. `whole` says that the strings are known to be good as a whole: then a text is good if it cuts no sequence, which its
// first byte and the one behind it tell.
pub fn good_within(strings: &[u8], offset: u32, len: u32, whole: bool) -> bool
    requires { whole ≡ true → good_bytes strings.now ≡ true }
    ensures { result ≡ good_in strings.now offset len }
{
    if !whole {
        return good_text(strings, offset, len);
    }
    if is_uncut(strings, offset, len) {
        return true;
    }
    good_text(strings, offset, len)
}

// Whether an optional text is absent or good; with one word NONE it is neither.
pub fn good_optional(strings: &[u8], offset: u32, len: u32, whole: bool) -> bool
    requires { whole ≡ true → good_bytes strings.now ≡ true }
    ensures { result ≡ optional_in strings.now offset len }
{
    if offset != NONE {
        return good_within(strings, offset, len, whole);
    }
    if len == NONE { true } else { false }
}
