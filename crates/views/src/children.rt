// Ordered and named children of a container, and texts.
ghost use Rattle.std.specs.Prelude.{◌≡◌};
ghost use Rattle.image.specs.Header.{sections_by};
ghost use Rattle.views.specs.Children.{child_count_of, named_count_of, child_query, named_entry, named_query, text_query, shown_text};

use crate::entries::{child_of, container_of, named_of};
use crate::view::is_shown;
use crate::{NamedChildView, Span};
use image::ImageView;

// How many ordered children a container has.
pub fn child_count(bytes: &[u8], view: ImageView, id: u32) -> Option<u32>
    ensures { result ≡ child_count_of (sections_by bytes.now view) id }
{
    let node = container_of(bytes, view, id)?;
    Some(node.f4)
}

// How many named children a container has.
pub fn named_child_count(bytes: &[u8], view: ImageView, id: u32) -> Option<u32>
    ensures { result ≡ named_count_of (sections_by bytes.now view) id }
{
    let node = container_of(bytes, view, id)?;
    Some(node.f6)
}

// The `j`-th ordered child of a container.
// Beside `named_child_at` the two fields, the section and what is answered differ: as one function it would be given all four.
pub fn child_at(bytes: &[u8], view: ImageView, id: u32, j: u32) -> Option<u32>
    ensures { result ≡ child_query (sections_by bytes.now view) id j }
{
    let node = container_of(bytes, view, id)?;
    if j < node.f4 {
        child_of(bytes, view, node.f3 as usize + j as usize)
    } else {
        None
    }
}

// The `j`-th named child of a container: its name and its node.
pub fn named_child_at(bytes: &[u8], view: ImageView, id: u32, j: u32) -> Option<NamedChildView>
    ensures { result ≡ named_query (sections_by bytes.now view) id j }
{
    let node = container_of(bytes, view, id)?;
    if j < node.f6 {
        named_entry(bytes, view, node.f5 as usize + j as usize)
    } else {
        None
    }
}

// Named entry `k`, where its text is present and inside.
fn named_entry(bytes: &[u8], view: ImageView, k: usize) -> Option<NamedChildView>
    ensures { result ≡ named_entry (sections_by bytes.now view) k }
{
    let strings = image::section_part(bytes, view.strings, ImageView::STRINGS_SIZE);
    let entry = named_of(bytes, view, k)?;
    if is_shown(strings.len(), entry.offset, entry.len) {
        Some(NamedChildView {
            name: Span {
                offset: entry.offset,
                len: entry.len,
            },
            node: entry.value,
        })
    } else {
        None
    }
}

// The text, if it is present and inside the strings.
pub fn text_answer(bytes: &[u8], view: ImageView, text: Span) -> Option<Span>
    ensures { result ≡ text_query (sections_by bytes.now view) text }
{
    let strings = image::section_part(bytes, view.strings, ImageView::STRINGS_SIZE);
    if is_shown(strings.len(), text.offset, text.len) {
        Some(text)
    } else {
        None
    }
}

// The part of the strings that holds a text, empty where the query finds none.
pub fn shown_part(strings: &[u8], text: Span) -> &[u8]
    ensures { result.now ≡ shown_text strings.now text.offset text.len }
{
    if is_shown(strings.len(), text.offset, text.len) {
        image::text_part(strings, text.offset, text.len)
    } else {
        &strings[..0]
    }
}

// The part of the image that holds a text, empty where the query finds none.
// As `entries::named_of` it hands a section on; what is done with the section is another function.
pub fn text(bytes: &[u8], view: ImageView, text: Span) -> &[u8]
    ensures { result.now ≡ shown_text (sections_by bytes.now view).strings text.offset text.len }
{
    shown_part(
        image::section_part(bytes, view.strings, ImageView::STRINGS_SIZE),
        text,
    )
}
