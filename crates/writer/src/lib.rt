// The writer: a draft becomes an image, or the number of the first rule that it breaks.
#![tactic(auto)]

ghost use Rattle.std.specs.Prelude.{◌≡◌, length, ◌+◌, ◌*◌, ◌≤◌, true};
ghost use Rattle.image.specs.Refusals.{refusal_in};
ghost use Rattle.draft.specs.Source.{drafted, draft_of};
ghost use Rattle.writer.specs.declared.EncodeError.TheVariants.{Refused};
ghost use Rattle.writer.specs.Encoded.{encoded_in};
ghost use Rattle.writer.specs.Answer.{encoded_of, fits_output, EncodeAnswered, WrittenWith};
ghost use Rattle.draft.specs.Draft.{tables_rule, write_words};
ghost use Rattle.draft.specs.Needs.{words_for};
ghost use Rattle.image.specs.Header.{ink_right, version};
ghost use Rattle.image.specs.Refusals.{no_room};
ghost use Rattle.draft_image.specs.Encode.{image_for, encode_rule, out_after, encode_work_after};
ghost use Rattle.laws.specs.Refusal.{unless};
ghost use Rattle.write_plan.specs.Planned.{layout_by};
ghost use Rattle.writer.specs.Planned.{Drawn};

use draft::layout::Layout;
use draft::source::{Draft, Source};
use draft::tables;
use image::header::ink_right;
use image::refusal::Refusal;
use image::{EntryCounts, ImageView};
use write_image::size;

// Why no image was written: the output is too short for it, and how long it is (23); or the first rule that is broken. An image of more than
// 4294967295 bytes is `Refused(NoRoom)`.
#[derive(Clone, Copy, Debug, PartialEq, Eq)]
pub enum EncodeError {
    Short(u32),
    Refused(Refusal),
}

impl From<Refusal> for EncodeError {
    ghost from_gives = { λ refusal e. e ≡ Refused refusal };

    fn from(refusal: Refusal) -> EncodeError {
        EncodeError::Refused(refusal)
    }
}

// Where things lie in the work words before the texts are counted, by a draft's counts and the work words that it needs.
fn layout_of(counts: EntryCounts, needed: usize) -> Layout
    requires { words_for counts ≤ needed }
    ensures { result ≡ layout_by counts needed }
{
    let uses = 2 * counts.nodes + counts.named + counts.definitions + counts.items + counts.payload;
    Layout {
        at: 2 * uses,
        texts: 0,
        paths: 2 * uses,
        lengths: 2 * uses + counts.nodes,
        order: needed - 2 * counts.nodes,
        new: needed - counts.nodes,
        offsets: 0,
    }
}

// Writes the image that was planned, if it fits the output.
fn put_image(
    ink: u32,
    draft: Draft,
    work: &[u32],
    layout: Layout,
    counts: EntryCounts,
    out: &mut [u8],
    source: Source,
) -> Result<u32, EncodeError>
    requires { let s =
        drafted source.version draft in
        Drawn s work.now layout counts }
    ensures { let s =
        drafted source.version draft.entry in
        EncodeAnswered ink s (unless (fits_output ink s (length out.old)) no_room) out.old out.new (encoded_in result) }
{
    match size::image_length(counts, source) {
        None => Err(EncodeError::Refused(Refusal::NoRoom)),
        Some(length) => {
            if out.len() < length as usize {
                return Err(EncodeError::Short(length));
            }
            write_image::fill(ink, draft, work, layout, counts, out, source);
            Ok(length)
        }
    }
}

// Plans and writes the image of a draft whose tables are right, in exactly the work words that it needs.
fn write(
    ink: u32,
    draft: Draft,
    out: &mut [u8],
    work: &mut [u32],
    source: Source,
) -> Result<u32, EncodeError>
    requires fact { let s =
        drafted source.version draft in
        (ink_right ink ≡ true) × (tables_rule s ≡ 0) }
    requires work_value { let s =
        drafted source.version draft in
        length work.old ≡ write_words s }
    ensures { let s =
        drafted source.version draft.entry in
        WrittenWith ink s out.old out.new (encoded_in result) }
{
    let counts = draft::entry_counts(draft, source);
    let layout = layout_of(counts, work.len());
    let (planned, entries) = write_plan::prepare(draft, work, layout, counts, source)?;
    put_image(ink, draft, work, planned, entries, out, source)
}

// Writes the image of a draft at the start of the output and gives its length, or the number of the first rule that the draft breaks:
// 3, 19, 7, 20, 21, 22, 23. An output that is too short is told how long the image is; an empty one asks for it. A refusal leaves the
// output as it was; 3, 19 and 7 leave the work words too, otherwise as many as are needed are 0 on return.
pub fn encode(ink: u32, draft: Draft, out: &mut [u8], work: &mut [u32]) -> Result<u32, EncodeError>
    ensures answer { let s =
        drafted version draft.entry in
        encoded_in result ≡ encoded_of ink s (length work.old) (length out.old) }
    ensures output { let s =
        drafted version draft.entry in
        out.new ≡ out_after (encode_rule ink s (length work.old) (length out.old)) (image_for ink s)
        out.old }
    ensures words { let s =
        drafted version draft.entry in
        work.new ≡ encode_work_after (write_words s) (encode_rule ink s (length work.old) (length out.old))
        work.old }
{
    if !ink_right(ink) {
        return Err(EncodeError::Refused(Refusal::BadInkVersion));
    }
    let source = Source {
        version: ImageView::VERSION,
    };
    tables::plain_tables_rule(draft, source)?;
    let counts = draft::entry_counts(draft, source);
    match draft::work_words_fit(counts, work.len()) {
        None => Err(EncodeError::Refused(Refusal::TooFewWords)),
        Some(needed) => {
            let answer = write(ink, draft, out, &mut work[..needed], source);
            tree::clear(work, needed);
            answer
        }
    }
}
