// The load of an image: its view, or the first rule broken.
#![tactic(auto)]

mod nodes; // nodes.rt: rows 8 to 13, node by node
pub mod needed; // needed.rt: how many work words a load needs, and what it refuses without any

ghost use Rattle.std.specs.Prelude.{◌≡◌, ◌≤◌, length, drop};
ghost use Rattle.image.specs.Refusals.{numbered, refusal_in};
ghost use Rattle.image.specs.Header.{header_rule, sections_by, sections_of, view_of};
ghost use Rattle.tree.specs.Tree.{tree_rule};
ghost use Rattle.index.specs.Index.{index_rule};
ghost use Rattle.definitions.specs.Definitions.{definitions_rule};
ghost use Rattle.laws.specs.Refusal.{◌▸◌};
ghost use Rattle.load.specs.Load.{records_rule, sections_rule, load_rule, load_words, loaded_of, work_after};

use image::ImageView;
use image::refusal::Refusal;

// Rows 14 and 15, of sections whose records pass.
fn tree_of(bytes: &[u8], view: ImageView, work: &mut [u32]) -> Result<(), Refusal>
    requires view_value { records_rule (sections_by bytes.now view) ≡ 0 }
    requires view_in_bounds { load_words (sections_by bytes.now view) ≤ length work.old }
    ensures answer { refusal_in result ≡ tree_rule (sections_by bytes.now view) }
    ensures rest { let n = load_words (sections_by bytes.now view) in drop n work.new ≡ drop n work.old }
{
    let nodes = image::nodes_part(bytes, view);
    let children = image::section_part(bytes, view.children, ImageView::CHILD_SIZE);
    let named = image::section_part(bytes, view.named, ImageView::NAMED_SIZE);
    let strings = image::section_part(bytes, view.strings, ImageView::STRINGS_SIZE);
    tree::tree_rule(nodes, children, named, strings, work, view.version)
}

// Rows 16 and 17, of sections whose records and tree pass.
fn index_of(bytes: &[u8], view: ImageView, work: &mut [u32]) -> Result<(), Refusal>
    requires view_value { records_rule (sections_by bytes.now view) ≡ 0 }
    requires view_value_2 { tree_rule (sections_by bytes.now view) ≡ 0 }
    requires view_in_bounds { load_words (sections_by bytes.now view) ≤ length work.old }
    ensures answer { let s = sections_by bytes.now view in refusal_in result ≡ (index_rule s ▸ definitions_rule s) }
    ensures rest { let n = load_words (sections_by bytes.now view) in drop n work.new ≡ drop n work.old }
{
    let nodes = image::nodes_part(bytes, view);
    let paths = image::section_part(bytes, view.index, ImageView::INDEX_SIZE);
    let strings = image::section_part(bytes, view.strings, ImageView::STRINGS_SIZE);
    index::index_rule(nodes, paths, strings, work, view.version)?;
    let definitions = image::section_part(bytes, view.definitions, ImageView::DEFINITION_SIZE);
    let items = image::section_part(bytes, view.items, ImageView::ITEM_SIZE);
    definitions::definitions_rule(definitions, items, strings)
}

// Rows 8 to 17. The work words that it needs are not zero afterwards.
fn sections_rule(bytes: &[u8], view: ImageView, work: &mut [u32]) -> Result<(), Refusal>
    requires { load_words (sections_by bytes.now view) ≤ length work.old }
    ensures answer { refusal_in result ≡ sections_rule (sections_by bytes.now view) }
    ensures rest { let n = load_words (sections_by bytes.now view) in drop n work.new ≡ drop n work.old }
{
    nodes::records_rule(bytes, view)?;
    tree_of(bytes, view, work)?;
    index_of(bytes, view, work)
}

// The rows after the header's.
fn load_view(bytes: &[u8], view: ImageView, work: &mut [u32]) -> Result<ImageView, Refusal>
    requires bytes_value { header_rule bytes.now ≡ 0 }
    requires view_value { view ≡ view_of bytes.now }
    ensures answer { numbered result ≡ loaded_of bytes.now (length work.old) }
    ensures words { let bs = bytes.now in
        work.new ≡ work_after (load_words (sections_of bs)) (load_rule bs (length work.old)) work.old }
{
    if words::word(bytes, ImageView::CHECKSUM_AT) != checksum::checksum(bytes) {
        return Err(Refusal::BadChecksum);
    }
    let needed = view.nodes.count as usize
        + view.children.count as usize
        + view.named.count as usize
        + 1;
    if work.len() < needed {
        return Err(Refusal::TooFewWords);
    }
    let kept = sections_rule(bytes, view, work);
    tree::clear(work, needed);
    kept?;
    Ok(view)
}

// Loads an image. As many work words as nodes, ordered children and named entries, and one more, are used, and zero on return.
pub fn load(bytes: &[u8], work: &mut [u32]) -> Result<ImageView, Refusal>
    ensures answer { numbered result ≡ loaded_of bytes.now (length work.old) }
    ensures words { let bs = bytes.now in
        work.new ≡ work_after (load_words (sections_of bs)) (load_rule bs (length work.old)) work.old }
{
    load_view(bytes, ImageView::new(bytes)?, work)
}
