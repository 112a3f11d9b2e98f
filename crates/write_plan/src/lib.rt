// What a draft's image will hold, worked out in the work words before a byte of the output is written: the numbers of the nodes, the
// paths in text order, the offset of every text. Rules 20 to 22, and 23 where the texts alone are too long.
// The work words are lent by C's caller: no heap is used.
#![tactic(auto)]

pub mod sharing; // sharing.rt: texts that are alike, taken from one place

ghost use Rattle.std.specs.Prelude.{◌≡◌, List, ℕ, ◌+◌, ◌≤◌, length};
ghost use Rattle.texts.specs.Text.{by_key};
ghost use Rattle.image.specs.Refusals.{numbered};
ghost use Rattle.write_interning.specs.Uses.{RisesFrom};
ghost use Rattle.write_text_keys.specs.Keys.{key_in, Placed};
ghost use Rattle.draft.specs.Source.{drafted, draft_of};
ghost use Rattle.draft.specs.Draft.{tables_rule, write_words};
ghost use Rattle.draft.specs.Needs.{draft_counts};
ghost use Rattle.write_plan.specs.Shared.{SameTexts};
ghost use Rattle.write_plan.specs.Planned.{layout_of, StoredPlan, Shaped, ShapedTables, PlanOf};

use crate::sharing::share;
use draft::layout::Layout;
use draft::shape;
use draft::source::{Draft, Source, node_count};
use image::EntryCounts;
use image::refusal::Refusal;

// Stores the texts and so many paths in use, each once, and completes layout and counts by them. The table may take a text from another place
// than it did.
fn store(
    nodes: &[u32],
    strings: &[u8],
    w: &mut [u32],
    layout: Layout,
    paths: usize,
    counts: EntryCounts,
    source: Source,
) -> Result<(Layout, EntryCounts), Refusal>
    requires paths_bound { (layout.texts + paths + (layout.texts + paths) ≤ layout.at) × Placed layout (length w.old) }
    requires texts_bound { (layout.texts + layout.texts ≤ layout.paths) × (layout.paths ≤ layout.lengths) }
    requires rises_from { RisesFrom (by_key (key_in source.version nodes.now strings.now layout w.old)) layout.texts (layout.texts + paths) }
    ensures answer { let key = key_in source.version nodes.now strings.now layout w.old in
        StoredPlan key layout counts paths w.new (numbered result) }
    ensures tables { SameTexts strings.now layout.at layout.texts w.old w.new }
{
    let n = layout.texts + paths;
    if 4294967295 < n {
        return Err(Refusal::NoRoom);
    }
    share(strings, w, layout);
    match write_interning::intern(nodes, strings, w, layout, n, source) {
        Some(strings) => {
            let mut planned = layout;
            planned.offsets = n;
            let mut entries = counts;
            entries.index = paths;
            entries.strings = strings;
            Ok((planned, entries))
        }
        None => Err(Refusal::NoRoom),
    }
}

// Sorts the paths and stores the texts of a draft that keeps the rules 19 to 21 and whose nodes are numbered in the work words.
pub fn plan_texts(
    nodes: &[u32],
    named: &[u32],
    definitions: &[u32],
    items: &[u32],
    payload: &[u8],
    strings: &[u8],
    w: &mut [u32],
    layout: Layout,
    counts: EntryCounts,
    source: Source,
) -> Result<(Layout, EntryCounts), Refusal>
    requires { ShapedTables source.version nodes.now named.now definitions.now items.now payload.now strings.now w.old
        layout counts }
    ensures { (children : List ℕ) → let s =
        draft_of source.version nodes.now children named.now definitions.now items.now payload.now
        strings.now in
        Shaped s w.old layout counts → PlanOf s w.new (numbered result) }
{
    let count = node_count(nodes, source);
    let found = write_paths::sort_paths(nodes, strings, w, layout, count, source)?;
    let texts = write_text_uses::collect(
        nodes,
        named,
        definitions,
        items,
        payload,
        w,
        layout.order,
        layout.at,
        source,
    );
    let mut collected = layout;
    collected.texts = texts;
    store(nodes, strings, w, collected, found, counts, source)
}

// Works out, in as many work words as a draft needs, the numbers, paths and offsets of its image.
pub fn prepare(
    draft: Draft,
    w: &mut [u32],
    layout: Layout,
    counts: EntryCounts,
    source: Source,
) -> Result<(Layout, EntryCounts), Refusal>
    requires { let s =
        drafted source.version draft in
        (tables_rule s ≡ 0) × (length w.old ≡ write_words s) × (layout ≡ layout_of s) × (counts ≡ draft_counts s) }
    ensures { let s =
        drafted source.version draft.entry in
        PlanOf s w.new (numbered result) }
{
    if !write_numbering::number(
        draft.nodes,
        draft.children,
        draft.named,
        w,
        layout.order,
        source,
    ) {
        return Err(Refusal::DraftUnreached);
    }
    shape::shape_rule(draft, source)?;
    plan_texts(
        draft.nodes,
        draft.named,
        draft.definitions,
        draft.items,
        draft.payload,
        draft.strings,
        w,
        layout,
        counts,
        source,
    )
}
