// Entries of the sections that a view bounds in bytes, where there are such.
ghost use Rattle.std.specs.Prelude.{◌≡◌};
ghost use Rattle.image.specs.Header.{sections_by};
ghost use Rattle.views.specs.Found.{node_found, container_found, child_found, named_found, definition_found, item_found, entry_found};

use image::{Definition, ImageView, NodeRecord, TextEntry, tag};

// Node `id`.
pub fn node_of(bytes: &[u8], view: ImageView, id: u32) -> Option<NodeRecord>
    ensures { result ≡ node_found (sections_by bytes.now view) id }
{
    let nodes = image::nodes_part(bytes, view);
    if !image::is_inside(image::node_count(nodes, view.version), id) {
        return None;
    }
    Some(image::node_record(nodes, view.version, id as usize))
}

// Node `id`, if it is a container.
pub fn container_of(bytes: &[u8], view: ImageView, id: u32) -> Option<NodeRecord>
    ensures { result ≡ container_found (sections_by bytes.now view) id }
{
    let node = node_of(bytes, view, id)?;
    if node.tag == tag::CONTAINER {
        Some(node)
    } else {
        None
    }
}

// Entry `k` of the ordered children.
pub fn child_of(bytes: &[u8], view: ImageView, k: usize) -> Option<u32>
    ensures { result ≡ child_found (sections_by bytes.now view) k }
{
    let children = image::section_part(bytes, view.children, ImageView::CHILD_SIZE);
    if children.len() / ImageView::WORD_BYTES <= k {
        return None;
    }
    Some(image::part_word(children, k))
}

// Entry `k` of a section of texts, out of the section's bytes.
pub fn entry_of(part: &[u8], k: usize) -> Option<TextEntry>
    ensures { result ≡ entry_found part.now k }
{
    if part.len() / ImageView::TEXT_ENTRY_BYTES <= k {
        return None;
    }
    Some(image::text_entry(part, k))
}

// Named entry `k`.
// What it and `item_of` have alike is `entry_of`; they differ in the section.
pub fn named_of(bytes: &[u8], view: ImageView, k: usize) -> Option<TextEntry>
    ensures { result ≡ named_found (sections_by bytes.now view) k }
{
    entry_of(
        image::section_part(bytes, view.named, ImageView::NAMED_SIZE),
        k,
    )
}

// Item `k`.
pub fn item_of(bytes: &[u8], view: ImageView, k: usize) -> Option<TextEntry>
    ensures { result ≡ item_found (sections_by bytes.now view) k }
{
    entry_of(
        image::section_part(bytes, view.items, ImageView::ITEM_SIZE),
        k,
    )
}

// Definition `d`.
// Beside `child_of` the section, its size and what is read there differ.
pub fn definition_of(bytes: &[u8], view: ImageView, d: usize) -> Option<Definition>
    ensures { result ≡ definition_found (sections_by bytes.now view) d }
{
    let definitions = image::section_part(bytes, view.definitions, ImageView::DEFINITION_SIZE);
    if definitions.len() / ImageView::DEFINITION_BYTES <= d {
        return None;
    }
    Some(image::definition_at(definitions, d))
}
