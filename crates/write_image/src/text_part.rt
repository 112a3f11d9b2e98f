// Sections 6 and 7 of an image: payload and strings.
ghost use Rattle.std.specs.Prelude.{◌≡◌, List, ℕ, length};
ghost use Rattle.draft.specs.Source.{draft_of};
ghost use Rattle.words.specs.Output.{over};
ghost use Rattle.write_image.specs.Given.{DraftPlanned, Keyed, TextsReady, texts_out};

use draft::layout::Layout;
use draft::source::Source;
use write_interning::emit;
use write_list_sections::payload::put_payload;

// Writes the sections at the start of the output.
pub fn put_texts(
    nodes: &[u32],
    payload: &[u8],
    strings: &[u8],
    work: &[u32],
    layout: Layout,
    out: &mut [u8],
    source: Source,
)
    requires { TextsReady source.version nodes.now payload.now strings.now work.now layout (length out.old) }
    ensures { (children named definitions items : List ℕ) → let s =
        draft_of source.version nodes.now children named definitions items payload.now strings.now in
        DraftPlanned s work.now layout → Keyed s work.now layout → out.new ≡ over (texts_out s) out.old }
{
    put_payload(nodes, payload, work, layout, out, source);
    let at_strings = payload.len();
    emit(
        nodes,
        strings,
        work,
        layout,
        layout.offsets,
        &mut out[at_strings..],
        source,
    );
}
