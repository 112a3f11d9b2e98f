// The header of an image that is written, and its checksum.
ghost use Rattle.std.specs.Prelude.{◌≡◌, ◌++◌, ℕ, ◌*◌, ◌≤◌, length};
ghost use Rattle.words.specs.Words.{NONE};
ghost use Rattle.image.specs.Header.{magic, header_length};
ghost use Rattle.image.specs.Sections.{Sections, node_size};
ghost use Rattle.image.specs.Encoding.{header_with, body_of, image_of};
ghost use Rattle.words.specs.Output.{over};
ghost use Rattle.image.specs.Counted.{length_by, CountsOf};

use crate::{EntryCounts, ImageView, node_size};
use words::output::{put_bytes, put_words};
use words::put_word;

// Writes the magic at the start of the output.
fn put_magic(out: &mut [u8])
    requires { header_length ≤ length out.old }
    ensures { out.new ≡ over magic out.old }
{
    put_bytes(&ImageView::MAGIC, out);
}

// Bytes of `count` nodes.
pub fn nodes_length(version: u32, count: usize) -> usize
    requires { count * node_size version ≤ 18446744073709551615 }
    ensures { result ≡ count * node_size version }
{
    count * (node_size(version) as usize)
}

// Writes the header of an image whose checksum is not known yet: it is 0. The versions and the counts say the rest.
pub fn put_header(version: u32, ink: u32, counts: EntryCounts, out: &mut [u8])
    requires { (header_length ≤ length out.old) × (length_by version counts ≤ NONE) }
    ensures { (s : Sections) → CountsOf version s counts → out.new ≡ over (header_with ink s 0) out.old }
{
    let children = ImageView::HEADER_LENGTH + nodes_length(version, counts.nodes);
    let named = children + counts.children * ImageView::WORD_BYTES;
    let definitions = named + counts.named * ImageView::TEXT_ENTRY_BYTES;
    let items = definitions + counts.definitions * ImageView::DEFINITION_BYTES;
    let index = items + counts.items * ImageView::TEXT_ENTRY_BYTES;
    let payload = index + counts.index * ImageView::TEXT_ENTRY_BYTES;
    let strings = payload + counts.payload;
    let words = [
        version,
        ink,
        (strings + counts.strings) as u32,
        ImageView::HEADER_LENGTH as u32,
        counts.nodes as u32,
        children as u32,
        counts.children as u32,
        named as u32,
        counts.named as u32,
        definitions as u32,
        counts.definitions as u32,
        items as u32,
        counts.items as u32,
        index as u32,
        counts.index as u32,
        payload as u32,
        counts.payload as u32,
        strings as u32,
        counts.strings as u32,
        0,
    ];
    put_magic(out);
    put_words(out, ImageView::VERSION_AT, &words);
}

// Writes the checksum of an image into its header, where 0 stands.
pub fn put_checksum(image: &mut [u8])
    requires { header_length ≤ length image.old }
    ensures { (ink : ℕ) (s : Sections) → image.old ≡ header_with ink s 0 ++ body_of s → image.new ≡ image_of ink s }
{
    let sum = checksum::checksum(image);
    put_word(image, ImageView::CHECKSUM_AT, sum);
}
