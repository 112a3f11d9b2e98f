// The record that is written for a node of the draft: texts by their offsets, nodes by their numbers in the image, starts by the sums
// over the image's nodes before it. Fields that a kind lacks are NONE.
ghost use Rattle.std.specs.Prelude.{◌≡◌, cond, ◌≤◌, length, get_or, eqb};
ghost use Rattle.records.specs.Fields.{kind_of, Container, Choice, Divert, Reference};
ghost use Rattle.image.specs.Tags.{container_tag};
ghost use Rattle.words.specs.Words.{NONE};
ghost use Rattle.write_tree_sections.specs.Encoded.{fielded, blank_of, optional_offset, text_count, record_by_kind};

use draft::source::word;
use image::{NONE, NodeRecord, tag};
use write_numbering::numbers::new_number;

// Where a node's ordered children, named children and payload start: the sums over the image's nodes before it.
#[derive(Clone, Copy)]
pub struct Starts {
    pub children: u32,
    pub named: u32,
    pub payload: u32,
}

// The record without its fields.
fn blank(node: NodeRecord, work: &[u32], new: usize) -> NodeRecord
    requires { new ≤ length work.now }
    ensures { result ≡ blank_of work.now new node }
{
    NodeRecord {
        parent: new_number(work, new, node.parent),
        place: node.place,
        tag: node.tag,
        f0: NONE,
        f1: NONE,
        f2: NONE,
        f3: NONE,
        f4: NONE,
        f5: NONE,
        f6: NONE,
    }
}

// A count of a node's children, ordered or named: 0 where it is no container.
pub(crate) fn if_container(node: NodeRecord, count: u32) -> u32
    ensures { result ≡ cond (eqb node.tag container_tag) count 0 }
{
    if node.tag == tag::CONTAINER { count } else { 0 }
}

// How many texts an optional text of a draft is, by its offset.
pub fn text_count(offset: u32) -> usize
    ensures { result ≡ text_count offset }
{
    if offset == NONE { 0 } else { 1 }
}

// The offset that is written for an optional text: the word at `at`, NONE where it is absent.
pub fn optional_offset(work: &[u32], at: usize, offset: u32) -> u32
    ensures { result ≡ optional_offset work.now at offset }
{
    if offset == NONE {
        return NONE;
    }
    word(work, at)
}

// A container: name, flags, where its ordered and its named children start, and their counts.
#[tactic(auto, unfolding(crate::specs::Encoded::record_by_kind))]
fn container(node: NodeRecord, work: &[u32], new: usize, at: usize, starts: Starts) -> NodeRecord
    requires { new ≤ length work.now }
    ensures { result ≡ record_by_kind work.now new at starts node Container }
{
    NodeRecord {
        f0: optional_offset(work, at, node.f0),
        f1: node.f1,
        f2: node.f2,
        f3: starts.children,
        f4: node.f4,
        f5: starts.named,
        f6: node.f6,
        ..blank(node, work, new)
    }
}

// A choice: path, target, flags.
#[tactic(auto, unfolding(crate::specs::Encoded::record_by_kind))]
fn choice(node: NodeRecord, work: &[u32], new: usize, at: usize, starts: Starts) -> NodeRecord
    requires { new ≤ length work.now }
    ensures { result ≡ record_by_kind work.now new at starts node Choice }
{
    NodeRecord {
        f0: optional_offset(work, at, node.f0),
        f1: node.f1,
        f2: new_number(work, new, node.f2),
        f3: node.f3,
        ..blank(node, work, new)
    }
}

// A divert: path, target, variable, arguments, flags.
#[tactic(auto, unfolding(crate::specs::Encoded::record_by_kind))]
fn divert(node: NodeRecord, work: &[u32], new: usize, at: usize, starts: Starts) -> NodeRecord
    requires { (new ≤ length work.now) × (at ≤ length work.now) }
    ensures { result ≡ record_by_kind work.now new at starts node Divert }
{
    NodeRecord {
        f0: optional_offset(work, at, node.f0),
        f1: node.f1,
        f2: new_number(work, new, node.f2),
        f3: optional_offset(work, at + text_count(node.f0), node.f3),
        f4: node.f4,
        f5: node.f5,
        f6: node.f6,
        ..blank(node, work, new)
    }
}

// A reference: name, path of its read count, and that count's container.
#[tactic(auto, unfolding(crate::specs::Encoded::record_by_kind))]
fn reference(node: NodeRecord, work: &[u32], new: usize, at: usize, starts: Starts) -> NodeRecord
    requires { (new ≤ length work.now) × (at ≤ length work.now) }
    ensures { result ≡ record_by_kind work.now new at starts node Reference }
{
    NodeRecord {
        f0: word(work, at),
        f1: node.f1,
        f2: optional_offset(work, at + 1, node.f2),
        f3: node.f3,
        f4: new_number(work, new, node.f4),
        ..blank(node, work, new)
    }
}

// A text, and what stands in the field behind it.
fn text_and(node: NodeRecord, work: &[u32], new: usize, at: usize, behind: u32) -> NodeRecord
    requires { new ≤ length work.now }
    ensures { result ≡ fielded work.now new node (get_or work.now at 0) node.f1 behind NONE NONE NONE NONE }
{
    NodeRecord {
        f0: word(work, at),
        f1: node.f1,
        f2: behind,
        ..blank(node, work, new)
    }
}

// Two fields, as they are told.
fn two(node: NodeRecord, work: &[u32], new: usize, f0: u32, f1: u32) -> NodeRecord
    requires { new ≤ length work.now }
    ensures { result ≡ fielded work.now new node f0 f1 NONE NONE NONE NONE NONE }
{
    NodeRecord {
        f0: f0,
        f1: f1,
        ..blank(node, work, new)
    }
}

// The record that is written for a node whose first text has its offset in the word at `at`.
pub fn encode_kind(
    node: NodeRecord,
    work: &[u32],
    new: usize,
    at: usize,
    starts: Starts,
) -> NodeRecord
    requires { (new ≤ length work.now) × (at ≤ length work.now) }
    ensures { result ≡ record_by_kind work.now new at starts node (kind_of node.tag) }
{
    let kind = node.tag;
    match kind {
        tag::CONTAINER => container(node, work, new, at, starts),
        tag::CHOICE => choice(node, work, new, at, starts),
        tag::DIVERT => divert(node, work, new, at, starts),
        tag::COMMAND | tag::STRING_VALUE => text_and(node, work, new, at, NONE),
        tag::OPERATOR..=tag::TAG => text_and(node, work, new, at, NONE),
        tag::BOOL_VALUE..=tag::FLOAT_VALUE => two(node, work, new, node.f0, NONE),
        tag::LIST_VALUE => two(node, work, new, starts.payload, node.f1),
        tag::TARGET_VALUE => text_and(node, work, new, at, new_number(work, new, node.f2)),
        tag::POINTER_VALUE | tag::ASSIGNMENT => text_and(node, work, new, at, node.f2),
        tag::REFERENCE => reference(node, work, new, at, starts),
        _ => blank(node, work, new),
    }
}
