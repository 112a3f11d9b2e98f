// Drafts: what the writer makes of them, against what the Rust wrote. A record is the ink version, the number, the lengths of nodes,
// children, named, definitions and items in words and of payload, strings and image in bytes; then all of these. The number 21 says that
// the Rust refuses, and that only refusal is compared.
ghost use Rattle.std.specs.Prelude.{◌≡◌};
ghost use Rattle.writer.specs.Encoded.{encoded_in};
ghost use Rattle.replay.specs.Recorded.{refused_alike, same_written};

use draft_words::{Slices, Tables, after, first, lengths_of, read_words};
use image::refusal::Refusal;
use writer::EncodeError;

// Where the words of a record stand: its first is the ink version. The draft follows them.
const NUMBER_AT: usize = 4;

const LENGTHS_AT: usize = 8;

const IMAGE_LENGTH_AT: usize = 36;

const DRAFT_AT: usize = 40;

// The bytes behind so many, which are filled up to whole words.
pub fn behind_bytes(bytes: &[u8], count: u32) -> &[u8] {
    after(bytes, (count as usize + 3) / 4 * 4)
}

// Whether a refusal is the recorded one. The number 21 stands for any.
fn refused_alike(ours: u32, theirs: u32) -> bool
    ensures { result ≡ refused_alike ours theirs }
{
    if theirs == 0 {
        return false;
    }
    if theirs == Refusal::DraftShape as u32 {
        return true;
    }
    ours == theirs
}

// Whether the answer and the output are as recorded.
fn same(answer: Result<u32, EncodeError>, out: &[u8], number: u32, image: &[u8]) -> bool
    ensures { result ≡ same_written (encoded_in answer) out.now number image.now }
{
    match answer {
        Ok(length) => {
            if number != 0 {
                return false;
            }
            texts::equal(first(out, length), image)
        }
        Err(EncodeError::Short(_)) => refused_alike(Refusal::NoRoom as u32, number),
        Err(EncodeError::Refused(refusal)) => refused_alike(refusal.number(), number),
    }
}

// Whether writing the draft gives what was recorded.
fn write_agrees(ink: u32, nodes: &[u32], slices: Slices<'_>, number: u32, image: &[u8]) -> bool {
    let mut out = [0; 512];
    let answer = writer::encode(ink, slices.with_nodes(nodes), &mut out, &mut [0; 1024]);
    same(answer, &out, number, image)
}

// A draft of which each section has at most 256 words, and its image at most 512 bytes.
pub fn draft_agrees(fields: &[u8]) -> bool {
    let lengths = lengths_of(after(fields, LENGTHS_AT));
    let bytes = after(fields, DRAFT_AT);
    let mut nodes = [0; 256];
    read_words(bytes, &mut nodes);
    let (tables, from_payload) = Tables::<256>::read(bytes, lengths);
    let from_strings = behind_bytes(from_payload, lengths.payload);
    let from_image = behind_bytes(from_strings, lengths.strings);
    let payload = first(from_payload, lengths.payload);
    let strings = first(from_strings, lengths.strings);
    write_agrees(
        words::get(fields, 0),
        first(&nodes, lengths.nodes),
        tables.slices(lengths, payload, strings),
        words::get(fields, NUMBER_AT),
        first(from_image, words::get(fields, IMAGE_LENGTH_AT)),
    )
}
