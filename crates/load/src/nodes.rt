// The record rules, node by node, with the sums of the counts before each; what is left over.
ghost use Rattle.std.specs.Prelude.{◌≡◌, []};
ghost use Rattle.image.specs.Refusals.{numbered, refusal_in};
ghost use Rattle.image.specs.Sections.{Sections, node_count};
ghost use Rattle.image.specs.Header.{sections_by};
ghost use Rattle.records.specs.Shown.{tag_in, counts_of, sums_before};
ghost use Rattle.load.specs.Load.{leftover_rule, records_rule};
ghost use Rattle.tree.specs.Parts.{parts_of};
ghost use Rattle.load.specs.Nodes.{node_by, nodes_of};

use image::refusal::Refusal;
use image::{EntryCounts, ImageView, NodeRecord};
use records::Sums;

// The tag of node `n`, 0 where there is no such node.
fn tag_at(nodes: &[u8], n: u32, version: u32) -> u32
    ensures { result ≡ tag_in (parts_of version nodes.now [] [] []) n }
{
    if image::is_inside(image::node_count(nodes, version), n) {
        image::node_word(nodes, version, n as usize, NodeRecord::TAG)
    } else {
        0
    }
}

// The rules of node `i`.
fn node_rule(
    nodes: &[u8],
    payload: &[u8],
    strings: &[u8],
    counts: EntryCounts,
    sums: Sums,
    i: usize,
    node: NodeRecord,
    version: u32,
) -> Result<(), Refusal>
    ensures { refusal_in result ≡ node_by version nodes.now payload.now strings.now counts sums i node }
{
    records::parent_rule(node, i, counts.nodes, tag_at(nodes, node.parent, version))?;
    records::fields_rule(
        node,
        counts,
        sums,
        tag_at(nodes, records::target_of(node), version),
        payload,
        strings,
    )
}

// The entries of the sections.
fn counts_of(bytes: &[u8], view: ImageView) -> EntryCounts
    ensures { result ≡ counts_of (sections_by bytes.now view) }
{
    let nodes = image::nodes_part(bytes, view);
    let children = image::section_part(bytes, view.children, ImageView::CHILD_SIZE);
    let named = image::section_part(bytes, view.named, ImageView::NAMED_SIZE);
    let definitions = image::section_part(bytes, view.definitions, ImageView::DEFINITION_SIZE);
    let items = image::section_part(bytes, view.items, ImageView::ITEM_SIZE);
    let index = image::section_part(bytes, view.index, ImageView::INDEX_SIZE);
    let payload = image::section_part(bytes, view.payload, ImageView::PAYLOAD_SIZE);
    let strings = image::section_part(bytes, view.strings, ImageView::STRINGS_SIZE);
    EntryCounts {
        nodes: image::node_count(nodes, view.version),
        children: children.len() / ImageView::WORD_BYTES,
        named: named.len() / ImageView::TEXT_ENTRY_BYTES,
        definitions: definitions.len() / ImageView::DEFINITION_BYTES,
        items: items.len() / ImageView::TEXT_ENTRY_BYTES,
        index: index.len() / ImageView::TEXT_ENTRY_BYTES,
        payload: payload.len(),
        strings: strings.len(),
    }
}

// The rules of every node, in order.
fn nodes_rule(bytes: &[u8], view: ImageView, counts: EntryCounts) -> Result<Sums, Refusal>
    requires { counts ≡ counts_of (sections_by bytes.now view) }
    ensures { numbered result ≡ nodes_of (sections_by bytes.now view) }
{
    let nodes = image::nodes_part(bytes, view);
    let payload = image::section_part(bytes, view.payload, ImageView::PAYLOAD_SIZE);
    let strings = image::section_part(bytes, view.strings, ImageView::STRINGS_SIZE);
    let mut sums = Sums {
        children: 0,
        named: 0,
        payload: 0,
        containers: 0,
    };
    for i in 0..counts.nodes {
        let node = image::node_record(nodes, view.version, i);
        node_rule(nodes, payload, strings, counts, sums, i, node, view.version)?;
        sums = records::add(sums, node);
    }
    Ok(sums)
}

// Row 13, of sections that have these counts and whose nodes have these sums.
fn left_over(counts: EntryCounts, sums: Sums) -> Result<(), Refusal>
    ensures { (s : Sections) → counts ≡ counts_of s → sums ≡ sums_before s (node_count s) → refusal_in result ≡ leftover_rule s }
{
    if !records::used_up(sums, counts) {
        return Err(Refusal::LeftOver);
    }
    if sums.containers == counts.index {
        Ok(())
    } else {
        Err(Refusal::LeftOver)
    }
}

// Rows 8 to 13.
pub fn records_rule(bytes: &[u8], view: ImageView) -> Result<(), Refusal>
    ensures { refusal_in result ≡ records_rule (sections_by bytes.now view) }
{
    let nodes = image::nodes_part(bytes, view);
    if image::node_count(nodes, view.version) == 0 {
        return Err(Refusal::BadRoot);
    }
    if !records::root_right(image::node_record(nodes, view.version, 0)) {
        return Err(Refusal::BadRoot);
    }
    let counts = counts_of(bytes, view);
    left_over(counts, nodes_rule(bytes, view, counts)?)
}
