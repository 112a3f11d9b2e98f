// List values, definitions and items.
// `put_first_item` answers the number that the C interface gives: 0, or NOT_FOUND.
ghost use Rattle.std.specs.Prelude.{◌≡◌};
ghost use Rattle.image.specs.Header.{sections_by};
ghost use Rattle.views.specs.Lists.{definition_query};
ghost use Rattle.answers.specs.AnswerWords.{Answered};
ghost use Rattle.story_image.specs.Queries.{answer_of_list_entry, answer_of_list_origin};
ghost use Rattle.story_image.specs.Queries.{answer_of_list_payload, answer_of_list_counts, answer_of_node_list_entry, answer_of_node_list_origin};
ghost use Rattle.story_image.specs.Queries.{answer_of_definition_count, answer_of_definition, answer_of_definition_item, answer_of_list_item, searched_after};
ghost use Rattle.story_image.specs.Queries.{answer_of_first_item, first_words};

use crate::{VIEW_WORDS, view_of};
use answers::NOT_FOUND;
use image::ImageView;

// Item `index` of a list value, out of its payload and the strings: origin, origin_length, name, name_length, value.
#[unsafe(no_mangle)]
pub extern "C" fn story_image_list_entry(
    payload: &[u8],
    strings: &[u8],
    index: u32,
    answer: &mut [u32],
) -> u32
    ensures { Answered (answer_of_list_entry payload.now strings.now index) answer.old answer.new result }
{
    answers::lists::put_entry(views::lists::list_entry(payload, strings, index), answer)
}

// Origin `index` of a list value, out of its payload and the strings: its place in the strings.
#[unsafe(no_mangle)]
pub extern "C" fn story_image_list_origin(
    payload: &[u8],
    strings: &[u8],
    index: u32,
    answer: &mut [u32],
) -> u32
    ensures { Answered (answer_of_list_origin payload.now strings.now index) answer.old answer.new result }
{
    answers::put_place(views::lists::list_origin(payload, strings, index), answer)
}

// Start and length, in the image's bytes, of the payload of the list value that a node is.
#[unsafe(no_mangle)]
pub extern "C" fn story_image_list_payload(
    bytes: &[u8],
    view: &[u32],
    node: u32,
    answer: &mut [u32],
) -> u32
    ensures { Answered (answer_of_list_payload bytes.now view.now node) answer.old answer.new result }
{
    if view.len() < VIEW_WORDS {
        return NOT_FOUND;
    }
    let found = view_of(view);
    let payload = found.payload;
    match answers::lists::list_place(bytes, found, node) {
        None => NOT_FOUND,
        Some(list) => answers::put_part(bytes.len(), payload.offset, list, answer),
    }
}

// How many items and how many origins the list value has that a node is.
#[unsafe(no_mangle)]
pub extern "C" fn story_image_list_counts(
    bytes: &[u8],
    view: &[u32],
    node: u32,
    answer: &mut [u32],
) -> u32
    ensures { Answered (answer_of_list_counts bytes.now view.now node) answer.old answer.new result }
{
    if view.len() < VIEW_WORDS {
        return NOT_FOUND;
    }
    let found = view_of(view);
    match answers::lists::list_place(bytes, found, node) {
        None => NOT_FOUND,
        Some(list) => answers::lists::put_list_counts(
            views::lists::list_payload(bytes, found, list),
            answer,
        ),
    }
}

// Item `index` of the list value that a node is: origin, origin_length, name, name_length, value.
#[unsafe(no_mangle)]
pub extern "C" fn story_image_node_list_entry(
    bytes: &[u8],
    view: &[u32],
    node: u32,
    index: u32,
    answer: &mut [u32],
) -> u32
    ensures { Answered (answer_of_node_list_entry bytes.now view.now node index) answer.old answer.new result }
{
    if view.len() < VIEW_WORDS {
        return NOT_FOUND;
    }
    let found = view_of(view);
    match answers::lists::list_place(bytes, found, node) {
        None => NOT_FOUND,
        Some(list) => {
            let payload = views::lists::list_payload(bytes, found, list);
            let strings = image::section_part(bytes, found.strings, ImageView::STRINGS_SIZE);
            answers::lists::put_entry(views::lists::list_entry(payload, strings, index), answer)
        }
    }
}

// Origin `index` of the list value that a node is: its place in the strings.
#[unsafe(no_mangle)]
pub extern "C" fn story_image_node_list_origin(
    bytes: &[u8],
    view: &[u32],
    node: u32,
    index: u32,
    answer: &mut [u32],
) -> u32
    ensures { Answered (answer_of_node_list_origin bytes.now view.now node index) answer.old answer.new result }
{
    if view.len() < VIEW_WORDS {
        return NOT_FOUND;
    }
    let found = view_of(view);
    match answers::lists::list_place(bytes, found, node) {
        None => NOT_FOUND,
        Some(list) => {
            let payload = views::lists::list_payload(bytes, found, list);
            let strings = image::section_part(bytes, found.strings, ImageView::STRINGS_SIZE);
            answers::put_place(views::lists::list_origin(payload, strings, index), answer)
        }
    }
}

// How many list definitions there are.
#[unsafe(no_mangle)]
pub extern "C" fn story_image_definition_count(
    bytes: &[u8],
    view: &[u32],
    answer: &mut [u32],
) -> u32
    ensures { Answered (answer_of_definition_count bytes.now view.now) answer.old answer.new result }
{
    if view.len() < VIEW_WORDS {
        return NOT_FOUND;
    }
    answers::lists::put_total(views::lists::definition_count(bytes, view_of(view)), answer)
}

// A list definition: name, name_length, number of items.
#[unsafe(no_mangle)]
pub extern "C" fn story_image_definition(
    bytes: &[u8],
    view: &[u32],
    index: u32,
    answer: &mut [u32],
) -> u32
    ensures { Answered (answer_of_definition bytes.now view.now index) answer.old answer.new result }
{
    if view.len() < VIEW_WORDS {
        return NOT_FOUND;
    }
    answers::lists::put_definition(
        views::lists::definition(bytes, view_of(view), index),
        answer,
    )
}

// The number, among all items, of a definition's first item: what `story_image_find_list_item` answers, less this, is the item's index in
// its definition.
#[unsafe(no_mangle)]
pub extern "C" fn story_image_definition_first_item(
    bytes: &[u8],
    view: &[u32],
    index: u32,
    answer: &mut [u32],
) -> u32
    ensures { Answered (answer_of_first_item bytes.now view.now index) answer.old answer.new result }
{
    if view.len() < VIEW_WORDS {
        return NOT_FOUND;
    }
    put_first_item(bytes, view_of(view), index, answer)
}

// The same under a view.
fn put_first_item(bytes: &[u8], view: ImageView, index: u32, answer: &mut [u32]) -> u32
    ensures { let s = sections_by bytes.now view in
        Answered (first_words s index (definition_query s index)) answer.old answer.new result }
{
    match views::lists::definition(bytes, view, index) {
        None => NOT_FOUND,
        Some(_) => match views::entries::definition_of(bytes, view, index as usize) {
            None => NOT_FOUND,
            Some(definition) => {
                let words = [definition.first];
                answers::put_answer(&words, answer)
            }
        },
    }
}

// An item of a definition: name, name_length, value.
#[unsafe(no_mangle)]
pub extern "C" fn story_image_definition_item(
    bytes: &[u8],
    view: &[u32],
    index: u32,
    item: u32,
    answer: &mut [u32],
) -> u32
    ensures { Answered (answer_of_definition_item bytes.now view.now index item) answer.old answer.new result }
{
    if view.len() < VIEW_WORDS {
        return NOT_FOUND;
    }
    answers::lists::put_item(
        views::lists::definition_item(bytes, view_of(view), index, item),
        answer,
    )
}

// The item that a name means: its definition, its number among all items, its value. The first word of `searched`, if one is lent, gets
// the number of definitions whose items were searched, with 18 too.
#[unsafe(no_mangle)]
pub extern "C" fn story_image_find_list_item(
    bytes: &[u8],
    view: &[u32],
    name: &[u8],
    answer: &mut [u32],
    searched: &mut [u32],
) -> u32
    ensures answer { let found = answer_of_list_item bytes.now view.now name.now in
        Answered found answer.old answer.new result }
    ensures searched { let lent = searched.old in
        searched.new ≡ searched_after bytes.now view.now name.now lent }
{
    if view.len() < VIEW_WORDS {
        return NOT_FOUND;
    }
    answers::lists::put_search(
        list_items::list_item(bytes, view_of(view), name),
        answer,
        searched,
    )
}
