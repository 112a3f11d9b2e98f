// Ordered and named children of a container.
ghost use Rattle.std.specs.Prelude.{◌≡◌};
ghost use Rattle.answers.specs.AnswerWords.{Answered};
ghost use Rattle.story_image.specs.Queries.{answer_of_child_count, answer_of_child, answer_of_named_child_count, answer_of_named_child, answer_of_find_named_child};

use crate::{VIEW_WORDS, view_of};
use answers::NOT_FOUND;

// How many ordered children a container has.
#[unsafe(no_mangle)]
pub extern "C" fn story_image_child_count(
    bytes: &[u8],
    view: &[u32],
    node: u32,
    answer: &mut [u32],
) -> u32
    ensures { Answered (answer_of_child_count bytes.now view.now node) answer.old answer.new result }
{
    if view.len() < VIEW_WORDS {
        return NOT_FOUND;
    }
    answers::put_found(
        views::children::child_count(bytes, view_of(view), node),
        answer,
    )
}

// An ordered child of a container.
#[unsafe(no_mangle)]
pub extern "C" fn story_image_child_at(
    bytes: &[u8],
    view: &[u32],
    node: u32,
    index: u32,
    answer: &mut [u32],
) -> u32
    ensures { Answered (answer_of_child bytes.now view.now node index) answer.old answer.new result }
{
    if view.len() < VIEW_WORDS {
        return NOT_FOUND;
    }
    answers::put_found(
        views::children::child_at(bytes, view_of(view), node, index),
        answer,
    )
}

// How many named children a container has.
#[unsafe(no_mangle)]
pub extern "C" fn story_image_named_child_count(
    bytes: &[u8],
    view: &[u32],
    node: u32,
    answer: &mut [u32],
) -> u32
    ensures { Answered (answer_of_named_child_count bytes.now view.now node) answer.old answer.new result }
{
    if view.len() < VIEW_WORDS {
        return NOT_FOUND;
    }
    answers::put_found(
        views::children::named_child_count(bytes, view_of(view), node),
        answer,
    )
}

// A named child of a container: name, name_length, node.
#[unsafe(no_mangle)]
pub extern "C" fn story_image_named_child_at(
    bytes: &[u8],
    view: &[u32],
    node: u32,
    index: u32,
    answer: &mut [u32],
) -> u32
    ensures { Answered (answer_of_named_child bytes.now view.now node index) answer.old answer.new result }
{
    if view.len() < VIEW_WORDS {
        return NOT_FOUND;
    }
    answers::put_named(
        views::children::named_child_at(bytes, view_of(view), node, index),
        answer,
    )
}

// The named child of a container that bears the name.
#[unsafe(no_mangle)]
pub extern "C" fn story_image_find_named_child(
    bytes: &[u8],
    view: &[u32],
    node: u32,
    name: &[u8],
    answer: &mut [u32],
) -> u32
    ensures { let a = answer_of_find_named_child bytes.now view.now node name.now in
        Answered a answer.old answer.new result }
{
    if view.len() < VIEW_WORDS {
        return NOT_FOUND;
    }
    answers::put_found(
        lookups::find_named_child(bytes, view_of(view), node, name),
        answer,
    )
}
