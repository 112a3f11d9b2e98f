// A node's view, its depth, and where a text lies in the image.
ghost use Rattle.std.specs.Prelude.{◌≡◌};
ghost use Rattle.answers.specs.AnswerWords.{Answered};
ghost use Rattle.story_image.specs.Queries.{answer_of_node_view, answer_of_depth, answer_of_text};

use crate::{VIEW_WORDS, view_of};
use answers::NOT_FOUND;
use views::Span;

// A node's view: parent, place, kind, text, text_length, variable, variable_length, target, value, flags.
#[unsafe(no_mangle)]
pub extern "C" fn story_image_node_view(
    bytes: &[u8],
    view: &[u32],
    node: u32,
    answer: &mut [u32],
) -> u32
    ensures { Answered (answer_of_node_view bytes.now view.now node) answer.old answer.new result }
{
    if view.len() < VIEW_WORDS {
        return NOT_FOUND;
    }
    answers::node::put_node_view(bytes, view_of(view), node, answer)
}

// The depth of a node: the number of parent steps to node 0.
#[unsafe(no_mangle)]
pub extern "C" fn story_image_depth(
    bytes: &[u8],
    view: &[u32],
    node: u32,
    answer: &mut [u32],
) -> u32
    ensures { Answered (answer_of_depth bytes.now view.now node) answer.old answer.new result }
{
    if view.len() < VIEW_WORDS {
        return NOT_FOUND;
    }
    answers::put_found(depth::depth(bytes, view_of(view), node), answer)
}

// Start and length, in the image's bytes, of a text of the strings.
#[unsafe(no_mangle)]
pub extern "C" fn story_image_text(
    bytes: &[u8],
    view: &[u32],
    offset: u32,
    len: u32,
    answer: &mut [u32],
) -> u32
    ensures { Answered (answer_of_text bytes.now view.now offset len) answer.old answer.new result }
{
    if view.len() < VIEW_WORDS {
        return NOT_FOUND;
    }
    let found = view_of(view);
    let strings = found.strings;
    let text = views::children::text_answer(bytes, found, Span { offset, len });
    answers::put_text(bytes.len(), strings.offset, text, answer)
}
