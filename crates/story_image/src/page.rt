// A page of nodes in one call, and the view of a slot's words.
ghost use Rattle.std.specs.Prelude.{◌≡◌, length};
ghost use Rattle.answers.specs.AnswerWords.{Answered};
ghost use Rattle.story_image.specs.Queries.{page_number, page_written, answer_of_slot_view};

use crate::{VIEW_WORDS, view_of};
use answers::NOT_FOUND;
use image::refusal::number_of;

// The slot of each number: parent, place, tag and f0 to f6, then 0 and 0; 18 and eleven zeros for a node without a view. 24 where
// fewer than twelve words a number are lent.
#[unsafe(no_mangle)]
pub extern "C" fn story_image_page(
    bytes: &[u8],
    view: &[u32],
    numbers: &[u32],
    slots: &mut [u32],
) -> u32
    ensures answer { result ≡ page_number (length view.now) (length numbers.now) (length slots.old) }
    ensures written { slots.new ≡ page_written bytes.now view.now numbers.now slots.old }
{
    if view.len() < VIEW_WORDS {
        return NOT_FOUND;
    }
    number_of(pages::page(bytes, view_of(view), numbers, slots))
}

// The view of a slot's words, in the words of a node's view.
#[unsafe(no_mangle)]
pub extern "C" fn story_image_slot_view(
    bytes: &[u8],
    view: &[u32],
    slot: &[u32],
    answer: &mut [u32],
) -> u32
    ensures { Answered (answer_of_slot_view bytes.now view.now slot.now) answer.old answer.new result }
{
    if view.len() < VIEW_WORDS {
        return NOT_FOUND;
    }
    answers::view_words::put_node(pages::slot_view(bytes, view_of(view), slot), answer)
}
