// Where the sections lie that a view counts: one behind the other, from the header on. Places stay inside the crate.
ghost use Rattle.std.specs.Prelude.{◌≡◌, ◌+◌, ◌*◌, ◌≤◌, length};
ghost use Rattle.words.specs.Words.{NONE as none};
ghost use Rattle.image.specs.Sections.{node_size, most_node_size};
ghost use Rattle.image.specs.Header.{header_length, section_bytes, sections_by};
ghost use Rattle.views.specs.Found.{node_found};
ghost use Rattle.sleeper.specs.Reader.{section_by, unplaced, with_places};

use crate::SleeperView;
use image::{ImageView, NONE, NodeRecord, Section};

// Where the nodes end, which begin behind the header.
fn nodes_end(count: u32, version: u32) -> usize
    ensures value { result ≡ header_length + count * node_size version }
    ensures most { result ≤ header_length + none * most_node_size }
{
    ImageView::HEADER_LENGTH + (count as usize) * (image::node_size(version) as usize)
}

// Where a section ends that begins at `start`.
fn end_of(start: usize, count: u32, size: u32) -> usize
    requires { start + count * size ≤ 18446744073709551615 }
    ensures { result ≡ start + count * size }
{
    start + (count as usize) * (size as usize)
}

fn section(offset: usize, count: u32) -> Section
    requires { offset ≤ none }
    ensures { result ≡ section_by offset count }
{
    Section {
        offset: offset as u32,
        count,
    }
}

// The view with every section empty.
fn without_sections(view: SleeperView) -> ImageView
    ensures { result ≡ unplaced view }
{
    ImageView {
        version: view.version,
        ink_version: view.ink_version,
        nodes: section(0, 0),
        children: section(0, 0),
        named: section(0, 0),
        definitions: section(0, 0),
        items: section(0, 0),
        index: section(0, 0),
        payload: section(0, 0),
        strings: section(0, 0),
    }
}

// The view of an image of so many bytes, for the functions of the technician's reader.
pub fn with_places(length: usize, view: SleeperView) -> ImageView
    ensures { result ≡ with_places length view }
{
    let children = nodes_end(view.nodes, view.version);
    let named = end_of(children, view.children, ImageView::CHILD_SIZE);
    let definitions = end_of(named, view.named, ImageView::NAMED_SIZE);
    let items = end_of(definitions, view.definitions, ImageView::DEFINITION_SIZE);
    let index = end_of(items, view.items, ImageView::ITEM_SIZE);
    let payload = end_of(index, view.index, ImageView::INDEX_SIZE);
    let strings = end_of(payload, view.payload, ImageView::PAYLOAD_SIZE);
    if (NONE as usize) < length {
        return without_sections(view);
    }
    if length < strings {
        return without_sections(view);
    }
    ImageView {
        version: view.version,
        ink_version: view.ink_version,
        nodes: section(ImageView::HEADER_LENGTH, view.nodes),
        children: section(children, view.children),
        named: section(named, view.named),
        definitions: section(definitions, view.definitions),
        items: section(items, view.items),
        index: section(index, view.index),
        payload: section(payload, view.payload),
        strings: section(strings, (length - strings) as u32),
    }
}

// The bytes of a section that is known to lie inside: nothing is tested again.
pub fn part(bytes: &[u8], section: Section, size: u32) -> &[u8]
    requires { section.offset + section.count * size ≤ length bytes.now }
    ensures { result.now ≡ section_bytes bytes.now section size }
{
    let start = section.offset as usize;
    let end = start + (section.count as usize) * (size as usize);
    &bytes[start..end]
}

// How long the payload is, where it is known to lie inside.
pub fn payload_length(view: ImageView) -> usize
    ensures { result ≡ view.payload.count }
{
    view.payload.count as usize
}

// Node `id` under a view whose nodes are known to lie inside, so that their count is the view's.
pub fn node_of(bytes: &[u8], view: ImageView, id: u32) -> Option<NodeRecord>
    requires { view.nodes.offset + view.nodes.count * node_size view.version ≤ length bytes.now }
    ensures { result ≡ node_found (sections_by bytes.now view) id }
{
    let nodes = part(bytes, view.nodes, image::node_size(view.version));
    if !image::is_inside(view.nodes.count as usize, id) {
        return None;
    }
    Some(image::node_record(nodes, view.version, id as usize))
}
