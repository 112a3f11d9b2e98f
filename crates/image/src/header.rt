// The header of an image: what it says, and rows 1 to 5 of the refusals.
ghost use Rattle.std.specs.Prelude.{◌≡◌, ◌≤◌, ◌<◌, length};
ghost use Rattle.image.specs.Refusals.{refusal_in};
ghost use Rattle.image.specs.Header.{header_length, section_at, view_of, version_right, ink_right, laid_out, header_rule};

use crate::refusal::Refusal;
use crate::{ImageView, Section};

// A section's count stands behind its offset.
const COUNTS_AT: usize = ImageView::SECTIONS_AT + ImageView::WORD_BYTES;

const SECTION_BYTES: usize = 2 * ImageView::WORD_BYTES;

// Offset and count of section `k`.
fn section_at(bytes: &[u8], k: usize) -> Section
    requires { (header_length ≤ length bytes.now) × (k < 8) }
    ensures { result ≡ section_at bytes.now k }
{
    Section {
        offset: words::word(bytes, ImageView::SECTIONS_AT + SECTION_BYTES * k),
        count: words::word(bytes, COUNTS_AT + SECTION_BYTES * k),
    }
}

// The view that a header gives.
pub fn view_at(bytes: &[u8]) -> ImageView
    requires { header_length ≤ length bytes.now }
    ensures { result ≡ view_of bytes.now }
{
    ImageView {
        version: words::word(bytes, ImageView::VERSION_AT),
        ink_version: words::word(bytes, ImageView::INK_VERSION_AT),
        nodes: section_at(bytes, 0),
        children: section_at(bytes, 1),
        named: section_at(bytes, 2),
        definitions: section_at(bytes, 3),
        items: section_at(bytes, 4),
        index: section_at(bytes, 5),
        payload: section_at(bytes, 6),
        strings: section_at(bytes, 7),
    }
}

// Whether a format version is one that is known.
fn version_right(version: u32) -> bool
    ensures { result ≡ version_right version }
{
    version == ImageView::VERSION
}

// Whether an ink version is one that is known.
pub fn ink_right(version: u32) -> bool
    ensures { result ≡ ink_right version }
{
    if version < ImageView::FIRST_INK_VERSION {
        return false;
    }
    if version <= ImageView::LAST_INK_VERSION {
        true
    } else {
        false
    }
}

// Whether the sections follow each other from the header to the end of the bytes, with a node in the first.
fn laid_out(bytes: &[u8]) -> bool
    requires { header_length ≤ length bytes.now }
    ensures { result ≡ laid_out bytes.now }
{
    let sizes = crate::section_sizes(words::word(bytes, ImageView::VERSION_AT));
    let mut end = ImageView::HEADER_LENGTH;
    for k in 0..8 {
        let section = section_at(bytes, k);
        let offset = section.offset as usize;
        if offset != end {
            return false;
        }
        end = offset + (section.count as usize) * (sizes[k] as usize);
        if bytes.len() < end {
            return false;
        }
    }
    if end != bytes.len() {
        return false;
    }
    let nodes = section_at(bytes, 0);
    if nodes.count == 0 { false } else { true }
}

// Whether the header keeps rows 1 to 5, or the first that it breaks.
pub fn header_rule(bytes: &[u8]) -> Result<(), Refusal>
    ensures { refusal_in result ≡ header_rule bytes.now }
{
    if bytes.len() < ImageView::HEADER_LENGTH {
        return Err(Refusal::BadHeader);
    }
    let magic = ImageView::MAGIC;
    if !texts::equal(&bytes[..8], &magic) {
        return Err(Refusal::BadHeader);
    }
    if !version_right(words::word(bytes, ImageView::VERSION_AT)) {
        return Err(Refusal::BadVersion);
    }
    if !ink_right(words::word(bytes, ImageView::INK_VERSION_AT)) {
        return Err(Refusal::BadInkVersion);
    }
    if words::word(bytes, ImageView::LENGTH_AT) as usize != bytes.len() {
        return Err(Refusal::BadLength);
    }
    if laid_out(bytes) {
        Ok(())
    } else {
        Err(Refusal::BadSections)
    }
}
