// A draft: how its entries are read out of word slices, the work words that it needs, and its rules 19 and 21.
#![tactic(auto)]

pub mod source; // source.rt: a draft's words and entries
pub mod tables; // tables.rt: row 19
pub mod shape; // shape.rt: row 21
pub mod layout; // layout.rt: where things lie in the work words
pub mod path_list; // path_list.rt: the paths lent beside a draft

ghost use Rattle.std.specs.Prelude.{◌≡◌};
ghost use Rattle.draft.specs.Source.{drafted};
ghost use Rattle.draft.specs.Needs.{draft_counts, words_for, needed_of};

use crate::source::{Draft, Source};
use image::{EntryCounts, ImageView};

// Counts the entries of a draft. It has no index, and its strings are stored anew: neither is counted.
pub fn entry_counts(draft: Draft, source: Source) -> EntryCounts
    ensures { result ≡ draft_counts (drafted source.version draft.entry) }
{
    EntryCounts {
        nodes: source::node_count(draft.nodes, source),
        children: draft.children.len(),
        named: draft.named.len() / ImageView::TEXT_ENTRY_WORDS,
        definitions: draft.definitions.len() / ImageView::DEFINITION_WORDS,
        items: draft.items.len() / ImageView::TEXT_ENTRY_WORDS,
        index: 0,
        payload: draft.payload.len(),
        strings: 0,
    }
}

// Compares the work words that so many entries need with those that are lent: 16 a node, 4 for each other entry and payload byte. What is left of
// a quarter of them goes down count by count, so that no sum can be too large.
pub fn work_words_fit(counts: EntryCounts, work: usize) -> Option<usize>
    ensures { result ≡ needed_of (words_for counts) work }
{
    let all = work / 4;
    if all / 4 < counts.nodes {
        return None;
    }
    let mut left = all - counts.nodes * 4;
    if left < counts.children {
        return None;
    }
    left -= counts.children;
    if left < counts.named {
        return None;
    }
    left -= counts.named;
    if left < counts.definitions {
        return None;
    }
    left -= counts.definitions;
    if left < counts.items {
        return None;
    }
    left -= counts.items;
    if left < counts.payload {
        return None;
    }
    Some((all - (left - counts.payload)) * 4)
}
