// List values, definitions and items in words.
// The functions `put_..` answer the number that the C interface gives: 0, or NOT_FOUND.
ghost use Rattle.std.specs.Prelude.{◌≡◌, [], ◌∷◌};
ghost use Rattle.image.specs.Header.{sections_by};
ghost use Rattle.views.specs.View.{node_view};
ghost use Rattle.answers.specs.AnswerWords.{entry_words, definition_view_words, item_view_words, count_words, found_item_words};
ghost use Rattle.answers.specs.AnswerWords.{Answered, answer_after, entry_answer, definition_answer, item_answer, list_item_answer, list_count_words};
ghost use Rattle.answers.specs.NodeViewWords.{list_place};
ghost use Rattle.answers.specs.RecordWords.{found_list_place, list_place_in};

use crate::{LARGEST_WORD, NOT_FOUND, put_answer, span_or, unsigned_of};
use image::{ImageView, NodeRecord, payload, tag};
use list_items::ItemSearch;
use lookups::ListItem;
use views::{DefinitionView, ItemView, ListEntry, Span};

// The same of a node's record, beside a payload of so many bytes.
fn place_of(node: NodeRecord, payload: usize) -> Option<Span>
    ensures { found_list_place result ≡ list_place_in payload node }
{
    if node.tag != tag::LIST_VALUE {
        return None;
    }
    if payload < node.f0 as usize + node.f1 as usize {
        return None;
    }
    Some(Span {
        offset: node.f0,
        len: node.f1,
    })
}

// Origin, origin_length, name, name_length, value.
pub fn entry_words(entry: ListEntry) -> [u32; 5]
    ensures { result ≡ entry_words entry }
{
    let origin = entry.origin;
    let place = span_or(origin);
    [
        place.offset,
        place.len,
        entry.name.offset,
        entry.name.len,
        unsigned_of(entry.value),
    ]
}

// Name, name_length, number of items.
pub fn definition_words(definition: DefinitionView) -> [u32; 3]
    ensures { result ≡ definition_view_words definition }
{
    [
        definition.name.offset,
        definition.name.len,
        definition.items,
    ]
}

// Name, name_length, value.
pub fn item_words(item: ItemView) -> [u32; 3]
    ensures { result ≡ item_view_words item }
{
    [item.name.offset, item.name.len, unsigned_of(item.value)]
}

// An entry of a list value that was found.
// Beside `put_definition` and `put_item` only the words' function differs; what is alike is `put_answer`.
pub fn put_entry(found: Option<ListEntry>, answer: &mut [u32]) -> u32
    ensures { Answered (entry_answer found) answer.old answer.new result }
{
    match found {
        None => NOT_FOUND,
        Some(entry) => {
            let words = entry_words(entry);
            put_answer(&words, answer)
        }
    }
}

// A definition that was found.
// Beside `put_entry` and `put_item` only the words' function differs; what is alike is `put_answer`.
pub fn put_definition(found: Option<DefinitionView>, answer: &mut [u32]) -> u32
    ensures { Answered (definition_answer found) answer.old answer.new result }
{
    match found {
        None => NOT_FOUND,
        Some(definition) => {
            let words = definition_words(definition);
            put_answer(&words, answer)
        }
    }
}

// An item of a definition that was found.
// Beside `put_entry` and `put_definition` only the words' function differs; what is alike is `put_answer`.
pub fn put_item(found: Option<ItemView>, answer: &mut [u32]) -> u32
    ensures { Answered (item_answer found) answer.old answer.new result }
{
    match found {
        None => NOT_FOUND,
        Some(item) => {
            let words = item_words(item);
            put_answer(&words, answer)
        }
    }
}

// A number of entries, where a word holds it.
pub fn put_total(count: usize, answer: &mut [u32]) -> u32
    ensures { Answered (count_words count) answer.old answer.new result }
{
    if LARGEST_WORD < count {
        return NOT_FOUND;
    }
    let words = [count as u32];
    put_answer(&words, answer)
}

// Definition, number among all items, value; where words hold the numbers.
pub fn put_item_numbers(item: ListItem, answer: &mut [u32]) -> u32
    ensures { Answered (found_item_words item) answer.old answer.new result }
{
    if LARGEST_WORD < item.definition {
        return NOT_FOUND;
    }
    if LARGEST_WORD < item.item {
        return NOT_FOUND;
    }
    let words = [
        item.definition as u32,
        item.item as u32,
        unsigned_of(item.value),
    ];
    put_answer(&words, answer)
}

// The same of an item that was found by name.
pub fn put_list_item(found: Option<ListItem>, answer: &mut [u32]) -> u32
    ensures { Answered (list_item_answer found) answer.old answer.new result }
{
    match found {
        None => NOT_FOUND,
        Some(item) => put_item_numbers(item, answer),
    }
}

// The same of a search, and the number of definitions whose items it searched as the first word of `searched`, if a word is lent.
pub fn put_search(search: ItemSearch, answer: &mut [u32], searched: &mut [u32]) -> u32
    ensures answer { Answered (list_item_answer search.answer) answer.old answer.new result }
    ensures searched { searched.new ≡ answer_after (Some (search.searched ∷ [])) searched.old }
{
    let count = [search.searched];
    put_answer(&count, searched);
    let found = search.answer;
    put_list_item(found, answer)
}

// Items and origins of a list value, out of its payload.
pub fn put_list_counts(payload: &[u8], answer: &mut [u32]) -> u32
    ensures { Answered (list_count_words payload.now) answer.old answer.new result }
{
    if payload.len() < payload::HEAD_BYTES {
        return NOT_FOUND;
    }
    let words = [
        words::word(payload, 0),
        words::word(payload, payload::ORIGIN_COUNT_AT),
    ];
    put_answer(&words, answer)
}

// The place of a node's list value: where its view shows a list.
pub fn list_place(bytes: &[u8], view: ImageView, id: u32) -> Option<Span>
    ensures { found_list_place result ≡ list_place (node_view (sections_by bytes.now view) id) }
{
    let node = views::entries::node_of(bytes, view, id)?;
    let payload = image::section_part(bytes, view.payload, ImageView::PAYLOAD_SIZE);
    place_of(node, payload.len())
}
