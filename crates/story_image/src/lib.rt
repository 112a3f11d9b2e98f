// The library for C and Rust (include/story_image.h): each function on numbers and lent slices. A query returns 0 and writes its words
// at the start of the lent answer, or returns 18 and leaves the answer as it was.
#![tactic(auto)]

pub mod node; // node.rt: a node's view, its depth, texts
pub mod page; // page.rt: a page of nodes, the view of a slot's words
pub mod children; // children.rt: ordered and named children
pub mod lists; // lists.rt: list values, definitions, items
pub mod header_words; // header_words.rt: total length, length of the strings, checksum
pub mod walk; // walk.rt: walks along a path
pub mod counts; // counts.rt: targets counted, one target of a draft changed
pub mod resolve; // resolve.rt: targets of a draft found from paths
pub mod write; // write.rt: writing an image
pub mod needed; // needed.rt: how many words calls need
pub mod spelling; // spelling.rt: texts of commands and operators

ghost use Rattle.std.specs.Prelude.{◌≡◌, ◌≤◌, length};
ghost use Rattle.image.specs.Header.{sections_of, view_of};
ghost use Rattle.load.specs.Load.{load_rule, load_words, work_after};
ghost use Rattle.story_image.specs.Exported.{words_of_view, view_by, view_length, lent_words, written_after};

use image::refusal::number_of;
use image::{ImageView, Section};

// Words of a view: the ink version, then offset and count of each section.
const VIEW_WORDS: usize = 17;

// The view that words give: the only place where a view is made of lent words.
fn view_of(words: &[u32]) -> ImageView
    requires { view_length ≤ length words.now }
    ensures { result ≡ view_by words.now }
{
    ImageView {
        version: ImageView::VERSION,
        ink_version: words[0],
        nodes: Section {
            offset: words[1],
            count: words[2],
        },
        children: Section {
            offset: words[3],
            count: words[4],
        },
        named: Section {
            offset: words[5],
            count: words[6],
        },
        definitions: Section {
            offset: words[7],
            count: words[8],
        },
        items: Section {
            offset: words[9],
            count: words[10],
        },
        index: Section {
            offset: words[11],
            count: words[12],
        },
        payload: Section {
            offset: words[13],
            count: words[14],
        },
        strings: Section {
            offset: words[15],
            count: words[16],
        },
    }
}

// The words of a view.
fn words_of_view(view: ImageView) -> [u32; 17]
    ensures { result ≡ words_of_view view }
{
    [
        view.ink_version,
        view.nodes.offset,
        view.nodes.count,
        view.children.offset,
        view.children.count,
        view.named.offset,
        view.named.count,
        view.definitions.offset,
        view.definitions.count,
        view.items.offset,
        view.items.count,
        view.index.offset,
        view.index.count,
        view.payload.offset,
        view.payload.count,
        view.strings.offset,
        view.strings.count,
    ]
}

// Writes the words of a view at the start of a slice that holds them.
fn put_view(found: ImageView, view: &mut [u32])
    requires { view_length ≤ length view.old }
    ensures { view.new ≡ written_after 0 (words_of_view found) view.old }
{
    let words = words_of_view(found);
    answers::put_words(&words, view);
}

// Loads an image and writes its view; or gives the number of the first rule broken and leaves the view as it was. A view of fewer
// than 17 words counts as a lack of work words.
#[unsafe(no_mangle)]
pub extern "C" fn story_image_load(bytes: &[u8], work: &mut [u32], view: &mut [u32]) -> u32
    ensures answer { result ≡ load_rule bytes.now (lent_words (length view.old) (length work.old)) }
    ensures words { work.new ≡ work_after (load_words (sections_of bytes.now)) result work.old }
    ensures written { view.new ≡ written_after result (words_of_view (view_of bytes.now)) view.old }
{
    if view.len() < VIEW_WORDS {
        return number_of(load::needed::load_without_words(bytes));
    }
    match load::load(bytes, work) {
        Ok(found) => {
            put_view(found, view);
            0
        }
        Err(refusal) => refusal.number(),
    }
}
