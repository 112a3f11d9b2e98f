// Section 5: the index of the image's containers by their paths.
ghost use Rattle.std.specs.Prelude.{◌≡◌, List, map, ℕ, ◌+◌, ◌*◌, ◌≤◌, ◌<◌, length, get_or};
ghost use Rattle.laws.specs.Counted.{join_of};
ghost use Rattle.laws.specs.Lists.{place_in};
ghost use Rattle.words.specs.Words.{bytes_of};
ghost use Rattle.image.specs.Sections.{Sections, text_entry_size, node_count};
ghost use Rattle.draft.specs.Numbering.{old_of};
ghost use Rattle.draft_image.specs.Strings.{by_path, path_of};
ghost use Rattle.draft_image.specs.Written.{index_out};
ghost use Rattle.draft_image.specs.Ready.{NewsAt, OffsetsAt};
ghost use Rattle.words.specs.Output.{over};
ghost use Rattle.write_paths.specs.PathIndex.{IndexFit, PathsAt, LengthsAt};

use draft::layout::Layout;
use draft::source::word;
use image::ImageView;
use words::output::put_words;

// Writes the section at the start of the output: as many entries as there are paths. The offsets of the paths come behind those of the texts.
pub fn put_index(work: &[u32], layout: Layout, count: usize, out: &mut [u8])
    requires index_fit { IndexFit work.now layout count }
    requires count_in_bounds { text_entry_size * count ≤ length out.old }
    ensures { (s : Sections) (order : List ℕ) (kept : List (List ℕ)) → count ≡ length (by_path s order)
        → ((j : ℕ) → j < node_count s → old_of order j < node_count s) → ((j : ℕ) → j < node_count s → place_in order (old_of order j) ≡ j)
        → NewsAt order work.now (node_count s) layout.new → PathsAt s order work.now (layout.at + layout.paths)
        → LengthsAt s order work.now (layout.at + layout.lengths)
        → OffsetsAt kept (map (path_of s order) (by_path s order)) work.now (layout.offsets + layout.texts)
        → (let entries = join_of (length (by_path s order)) (λ k. index_out s order kept (get_or (by_path s order) k 0)) in
        out.new ≡ over (bytes_of entries) out.old) }
{
    let list = layout.at + layout.paths;
    let lengths = layout.at + layout.lengths;
    let text = layout.offsets + layout.texts;
    let mut at = 0;
    for k in 0..count {
        let node = word(work, list + k) as usize;
        let words = [
            word(work, text + k),
            word(work, lengths + node + node),
            word(work, layout.new + node),
        ];
        put_words(out, at, &words);
        at += ImageView::INDEX_SIZE as usize;
    }
}
