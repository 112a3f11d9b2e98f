// Writing an image from a draft.
ghost use Rattle.std.specs.Prelude.{◌≡◌, length};
ghost use Rattle.image.specs.Header.{version};
ghost use Rattle.draft.specs.Source.{drafted, draft_of};
ghost use Rattle.draft_image.specs.Encode.{image_for, encode_rule, out_after};
ghost use Rattle.writer.specs.Encoded.{encoded_in};
ghost use Rattle.writer.specs.Answer.{of_encoded};
ghost use Rattle.story_image.specs.Writing.{Wrote};

use answers::NO_ROOM;
use draft::source::Draft;
use writer::EncodeError;

// The number of an answer, which is what the C interface gives.
fn number_of(answer: Result<u32, EncodeError>) -> u32
    ensures { result ≡ (of_encoded (encoded_in answer)).number }
{
    match answer {
        Ok(_) => 0,
        Err(EncodeError::Short(_)) => NO_ROOM,
        Err(EncodeError::Refused(refusal)) => refusal.number(),
    }
}

// The number of a draft that is written without work words.
fn write_without_words(ink: u32, draft: Draft, output: &mut [u8]) -> u32
    ensures answer { let s = drafted version draft.entry in
        result ≡ encode_rule ink s 0 (length output.old) }
    ensures output { let s = drafted version draft.entry in
        output.new ≡ out_after result (image_for ink s) output.old }
{
    let mut word = [0u32; 1];
    let none: &mut [u32] = &mut word;
    let answer = writer::encode(ink, draft, output, &mut none[..0]);
    number_of(answer)
}

// Writes the image of a draft at the start of the output and its length into the first word of `written`; or gives the number of the
// first rule broken, and leaves the output as it was, and `written` too, but that with 23 it says how long the image is, if a word can.
// A `written` without a word counts as a lack of work words.
#[unsafe(no_mangle)]
pub extern "C" fn story_image_write(
    ink: u32,
    nodes: &[u32],
    children: &[u32],
    named: &[u32],
    definitions: &[u32],
    items: &[u32],
    payload: &[u8],
    strings: &[u8],
    work: &mut [u32],
    output: &mut [u8],
    written: &mut [u32],
) -> u32
    ensures { let s = draft_of version nodes.now children.now named.now definitions.now
        items.now payload.now strings.now in
        Wrote ink s output.old output.new work.old work.new
        written.old written.new result }
{
    let draft = Draft {
        nodes,
        children,
        named,
        definitions,
        items,
        payload,
        strings,
    };
    if written.len() < 1 {
        return write_without_words(ink, draft, output);
    }
    match writer::encode(ink, draft, output, work) {
        Ok(length) => {
            written[0] = length;
            0
        }
        Err(EncodeError::Short(needed)) => {
            written[0] = needed;
            NO_ROOM
        }
        Err(EncodeError::Refused(refusal)) => refusal.number(),
    }
}
