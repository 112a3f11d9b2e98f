// How long an image is, by the counts of its sections.
ghost use Rattle.std.specs.Prelude.{◌≡◌, ◌+◌, ◌*◌, ◌≤◌, ◌<◌};
ghost use Rattle.image.specs.Sections.{most_node_size};
ghost use Rattle.image.specs.Counted.{length_by};
ghost use Rattle.write_image.specs.Length.{capped, front_by, size_of};

use draft::source::{Source, node_words};
use image::{EntryCounts, ImageView};

// One more than a word can say, which stands for every larger number of bytes.
const MORE: usize = 4294967296;

// Bytes an entry of payload and strings.
const PAYLOAD_SIZE: usize = ImageView::PAYLOAD_SIZE as usize;

const STRINGS_SIZE: usize = ImageView::STRINGS_SIZE as usize;

// Adds a section to a number of bytes: no entry has more bytes than the widest node.
fn add(sum: usize, count: usize, size: usize) -> usize
    requires { (sum ≤ 4294967296) × (0 < size) × (size ≤ most_node_size) }
    ensures { result ≡ capped (sum + count * size) }
{
    if MORE <= count {
        return MORE;
    }
    (sum + count * size).min(MORE)
}

// Adds the sections of nodes, children, named children and definitions to the header.
fn front_length(counts: EntryCounts, source: Source) -> usize
    ensures { result ≡ capped (front_by source.version counts) }
{
    let nodes = add(
        ImageView::HEADER_LENGTH,
        counts.nodes,
        ImageView::WORD_BYTES * node_words(source),
    );
    let children = add(nodes, counts.children, ImageView::WORD_BYTES);
    let named = add(children, counts.named, ImageView::TEXT_ENTRY_BYTES);
    add(named, counts.definitions, ImageView::DEFINITION_BYTES)
}

// The length of an image.
pub fn image_length(counts: EntryCounts, source: Source) -> Option<u32>
    ensures { result ≡ size_of (length_by source.version counts) }
{
    let front = front_length(counts, source);
    let items = add(front, counts.items, ImageView::TEXT_ENTRY_BYTES);
    let index = add(items, counts.index, ImageView::TEXT_ENTRY_BYTES);
    let payload = add(index, counts.payload, PAYLOAD_SIZE);
    let total = add(payload, counts.strings, STRINGS_SIZE);
    if total < MORE {
        Some(total as u32)
    } else {
        None
    }
}
