// Who points at a node: how many targets name each node of an image or a draft, one word a node.
#![tactic(auto)]

mod count; // count.rt: the loops that count

ghost use Rattle.std.specs.Prelude.{◌≡◌, length};
ghost use Rattle.image.specs.Refusals.{refusal_in};
ghost use Rattle.image.specs.Header.{version, sections_by};
ghost use Rattle.draft.specs.Source.{drafted, draft_of};
ghost use Rattle.target_counts.specs.Summary.{summary_rule, draft_count_rule, summary_after};

use draft::source::{Draft, Source};
use draft::{source, tables};
use image::ImageView;
use image::refusal::Refusal;

// Counts the targets of an image that name each node. A summary that is too short is refused, by 27, and nothing is written. Words past the nodes stay.
pub fn count_targets(bytes: &[u8], view: ImageView, summary: &mut [u32]) -> Result<(), Refusal>
    ensures number { refusal_in result ≡ summary_rule (sections_by bytes.now view) (length summary.old) }
    ensures words { let s = sections_by bytes.now view in
        summary.new ≡ summary_after (summary_rule s (length summary.old)) s summary.old }
{
    let part = image::nodes_part(bytes, view);
    let count = image::node_count(part, view.version);
    if summary.len() < count {
        return Err(Refusal::BadSummary);
    }
    count::image_nodes(part, view.version, count, summary);
    Ok(())
}

// Counts the targets of a draft that name each node. A broken draft is refused, by 19, and a summary that cannot hold the counts, by 27; then
// nothing is written. Words past the nodes stay.
pub fn count_draft_targets(draft: Draft, summary: &mut [u32]) -> Result<(), Refusal>
    ensures number { let s =
        drafted version draft.entry in
        refusal_in result ≡ draft_count_rule s (length summary.old) }
    ensures words { let s =
        drafted version draft.entry in
        summary.new ≡ summary_after (draft_count_rule s (length summary.old)) s summary.old }
{
    let source = Source {
        version: ImageView::VERSION,
    };
    tables::plain_tables_rule(draft, source)?;
    let count = source::node_count(draft.nodes, source);
    if summary.len() < count {
        return Err(Refusal::BadSummary);
    }
    if !count::words_hold(draft.nodes, source) {
        return Err(Refusal::BadSummary);
    }
    count::draft_nodes(draft.nodes, count, summary, source);
    Ok(())
}
