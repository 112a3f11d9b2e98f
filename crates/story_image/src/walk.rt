// Walks along a path.
ghost use Rattle.std.specs.Prelude.{Bool, ◌≡◌};
ghost use Rattle.answers.specs.AnswerWords.{Answered};
ghost use Rattle.story_image.specs.Queries.{answer_of_walk};

use crate::{VIEW_WORDS, view_of};
use answers::NOT_FOUND;

// The node at the end of a path, three words a component.
#[unsafe(no_mangle)]
pub extern "C" fn story_image_resolve_path(
    bytes: &[u8],
    view: &[u32],
    origin: u32,
    relative: bool,
    path: &[u32],
    names: &[u8],
    answer: &mut [u32],
) -> u32
    ensures { let a = answer_of_walk bytes.now view.now origin relative path.now names.now in
        Answered a answer.old answer.new result }
{
    if view.len() < VIEW_WORDS {
        return NOT_FOUND;
    }
    answers::put_found(
        walks::resolve_path(bytes, view_of(view), origin, relative, path, names),
        answer,
    )
}
