// A list item by name: definitions are searched from the last to the first, the items of each by halving.
#![tactic(auto)]

ghost use Rattle.std.specs.Prelude.{◌≡◌, [], ◌+◌, ◌/◌, ◌≤◌, ◌<◌, length};
ghost use Rattle.words.specs.Words.{words_of};
ghost use Rattle.texts.specs.Text.{order_of};
ghost use Rattle.image.specs.Header.{sections_by};
ghost use Rattle.image.specs.Sections.{definition_size, text_entry_size};
ghost use Rattle.definitions.specs.Parts.{definition_parts};
ghost use Rattle.lookups.specs.Lookup.{found_place, entry_text, searched};
ghost use Rattle.list_items.specs.Search.{items_inside, found_item, search_among, origin_of, no_search, list_search};

use image::{Definition, ImageView};
use lookups::ListItem;
use std::cmp::Ordering;
use views::view::signed_of;

// What a search answers, and how many definitions' items it searched.
#[derive(Clone, Copy)]
pub struct ItemSearch {
    pub answer: Option<ListItem>,
    pub searched: u32,
}

// How many items of a definition there are to search: none where they are not all among so many.
fn items_inside(all: usize, definition: Definition) -> usize
    ensures { result ≡ items_inside all definition.first definition.count }
{
    let count = definition.count as usize;
    if all < definition.first as usize + count {
        0
    } else {
        count
    }
}

// The answer that is an item.
fn found(definition: usize, item: usize, value: u32) -> Option<ListItem>
    ensures { result ≡ found_item definition item value }
{
    Some(ListItem {
        definition,
        item,
        value: signed_of(value),
    })
}

// How the text of item k and the name are ordered, told in place for most texts.
fn order_at(items: &[u8], strings: &[u8], k: usize, name: &[u8]) -> Ordering
    requires { k < length items.now / text_entry_size }
    ensures { result ≡ order_of (entry_text (words_of items.now) strings.now k) name.now }
{
    let entry = image::text_entry(items, k);
    texts::compare_front(image::text_part(strings, entry.offset, entry.len), name)
}

// The place of the item among those of a definition.
fn place_of(definition: Definition, items: &[u8], strings: &[u8], name: &[u8]) -> Option<usize>
    ensures { let count = items_inside (length items.now / text_entry_size) definition.first definition.count in
        found_place result ≡ searched (words_of items.now) strings.now definition.first count name.now }
{
    let from = definition.first as usize;
    let count = items_inside(items.len() / ImageView::TEXT_ENTRY_BYTES, definition);
    lookups::halve(count, |k| order_at(items, strings, from + k, name))
}

// The item of the last definition that holds it, of `count` definitions from definition `first` on.
fn last_item(
    definitions: &[u8],
    items: &[u8],
    strings: &[u8],
    first: usize,
    count: usize,
    name: &[u8],
) -> ItemSearch
    requires count_in_bounds { first + count ≤ length definitions.now / definition_size }
    requires count_bound { count ≤ 4294967295 }
    ensures { let s = definition_parts definitions.now items.now strings.now in
        result ≡ search_among s first count name.now }
{
    for d in (first..first + count).rev() {
        let definition = image::definition_at(definitions, d);
        if let Some(j) = place_of(definition, items, strings, name) {
            let item = definition.first as usize + j;
            return ItemSearch {
                answer: found(d, item, image::text_entry(items, item).value),
                searched: (first + count - d) as u32,
            };
        }
    }
    ItemSearch {
        answer: None,
        searched: count as u32,
    }
}

// The last definition of this name.
fn origin_at(definitions: &[u8], strings: &[u8], origin: &[u8]) -> Option<usize>
    ensures { let s = definition_parts definitions.now [] strings.now in
        found_place result ≡ origin_of s origin.now }
{
    for at in (0..definitions.len() / ImageView::DEFINITION_BYTES).rev() {
        let definition = image::definition_at(definitions, at);
        let text = image::text_part(strings, definition.offset, definition.len);
        if texts::equal(origin, text) {
            return Some(at);
        }
    }
    None
}

// Nothing was searched.
fn no_search() -> ItemSearch
    ensures { result ≡ no_search }
{
    ItemSearch {
        answer: None,
        searched: 0,
    }
}

// The list item that a name means: an item's name, or an origin and an item's name with a dot between.
pub fn list_item(bytes: &[u8], view: ImageView, name: &[u8]) -> ItemSearch
    ensures { result ≡ list_search (sections_by bytes.now view) name.now }
{
    if view.definitions.count == 0 || utf8::is_blank(name) {
        return no_search();
    }
    let definitions = image::section_part(bytes, view.definitions, ImageView::DEFINITION_SIZE);
    let items = image::section_part(bytes, view.items, ImageView::ITEM_SIZE);
    let strings = image::section_part(bytes, view.strings, ImageView::STRINGS_SIZE);
    let all = definitions.len() / ImageView::DEFINITION_BYTES;
    let dot = texts::first_dot(name);
    if name.len() <= dot {
        return last_item(definitions, items, strings, 0, all, name);
    }
    match origin_at(definitions, strings, &name[..dot]) {
        None => no_search(),
        Some(d) => last_item(definitions, items, strings, d, 1, &name[dot + 1..]),
    }
}
