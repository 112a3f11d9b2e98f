// Entries of a list value, from its payload and the strings; definitions and items by number.
ghost use Rattle.std.specs.Prelude.{◌≡◌};
ghost use Rattle.image.specs.Sections.{definition_count};
ghost use Rattle.image.specs.Header.{sections_by};
ghost use Rattle.views.specs.Lists.{list_part, list_entry, list_entry_name, list_origin, definition_query, item_entry, item_query};

use crate::entries::{definition_of, item_of};
use crate::view::{is_shown, optional_text, signed_of};
use crate::{DefinitionView, ItemView, ListEntry, Span};
use image::ImageView;
use image::payload::{
    HEAD_BYTES, ITEM_BYTES, NAME_AT, NAME_LENGTH_AT, ORIGIN_BYTES, ORIGIN_COUNT_AT,
    ORIGIN_LENGTH_AT, VALUE_AT,
};

// The payload of a list value, empty where it is not inside.
pub fn list_payload(bytes: &[u8], view: ImageView, list: Span) -> &[u8]
    ensures { result.now ≡ list_part (sections_by bytes.now view) list }
{
    image::text_part(
        image::section_part(bytes, view.payload, ImageView::PAYLOAD_SIZE),
        list.offset,
        list.len,
    )
}

// Item `j` of a list value: optional origin, name, value.
pub fn list_entry(payload: &[u8], strings: &[u8], j: u32) -> Option<ListEntry>
    ensures { result ≡ list_entry payload.now strings.now j }
{
    let at = HEAD_BYTES + (j as usize) * ITEM_BYTES;
    if payload.len() < at + ITEM_BYTES {
        return None;
    }
    if words::word(payload, 0) <= j {
        return None;
    }
    let offset = words::word(payload, at + NAME_AT);
    let len = words::word(payload, at + NAME_LENGTH_AT);
    if !is_shown(strings.len(), offset, len) {
        return None;
    }
    let origin = optional_text(
        strings.len(),
        words::word(payload, at),
        words::word(payload, at + ORIGIN_LENGTH_AT),
    );
    let value = signed_of(words::word(payload, at + VALUE_AT));
    Some(ListEntry {
        origin,
        name: Span { offset, len },
        value,
    })
}

// The name of item `j`: a part of the strings, empty where there is no such item.
pub fn list_entry_name<'p, 's>(payload: &'p [u8], strings: &'s [u8], j: u32) -> &'s [u8]
    ensures { result.now ≡ list_entry_name payload.now strings.now j }
{
    match list_entry(payload, strings, j) {
        None => &strings[..0],
        Some(entry) => {
            let name = entry.name;
            image::text_part(strings, name.offset, name.len)
        }
    }
}

// Origin `j` of a list value.
pub fn list_origin(payload: &[u8], strings: &[u8], j: u32) -> Option<Span>
    ensures { result ≡ list_origin payload.now strings.now j }
{
    if payload.len() < HEAD_BYTES {
        return None;
    }
    let items = words::word(payload, 0) as usize;
    let at = HEAD_BYTES + items * ITEM_BYTES + (j as usize) * ORIGIN_BYTES;
    if payload.len() < at + ORIGIN_BYTES {
        return None;
    }
    if words::word(payload, ORIGIN_COUNT_AT) <= j {
        return None;
    }
    let offset = words::word(payload, at);
    let len = words::word(payload, at + ORIGIN_LENGTH_AT);
    if is_shown(strings.len(), offset, len) {
        Some(Span { offset, len })
    } else {
        None
    }
}

// How many definitions there are.
pub fn definition_count(bytes: &[u8], view: ImageView) -> usize
    ensures { result ≡ definition_count (sections_by bytes.now view) }
{
    image::section_part(bytes, view.definitions, ImageView::DEFINITION_SIZE).len()
        / ImageView::DEFINITION_BYTES
}

// Definition `d`: its name and how many items it has.
pub fn definition(bytes: &[u8], view: ImageView, d: u32) -> Option<DefinitionView>
    ensures { result ≡ definition_query (sections_by bytes.now view) d }
{
    let strings = image::section_part(bytes, view.strings, ImageView::STRINGS_SIZE);
    let definition = definition_of(bytes, view, d as usize)?;
    if is_shown(strings.len(), definition.offset, definition.len) {
        Some(DefinitionView {
            name: Span {
                offset: definition.offset,
                len: definition.len,
            },
            items: definition.count,
        })
    } else {
        None
    }
}

// Item `k` of all.
pub fn item(bytes: &[u8], view: ImageView, k: usize) -> Option<ItemView>
    ensures { result ≡ item_entry (sections_by bytes.now view) k }
{
    let strings = image::section_part(bytes, view.strings, ImageView::STRINGS_SIZE);
    let entry = item_of(bytes, view, k)?;
    if is_shown(strings.len(), entry.offset, entry.len) {
        Some(ItemView {
            name: Span {
                offset: entry.offset,
                len: entry.len,
            },
            value: signed_of(entry.value),
        })
    } else {
        None
    }
}

// The `j`-th item of definition `d`.
pub fn definition_item(bytes: &[u8], view: ImageView, d: u32, j: u32) -> Option<ItemView>
    ensures { result ≡ item_query (sections_by bytes.now view) d j }
{
    let definition = definition_of(bytes, view, d as usize)?;
    if j < definition.count {
        item(bytes, view, definition.first as usize + j as usize)
    } else {
        None
    }
}
