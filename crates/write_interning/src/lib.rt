// Interning: each text of the uses is stored once. The uses are sorted by their texts, the first use of each text is found from the sorted
// order, and each use is given its text's offset.
// The work words are lent by C's caller: no heap is used.
#![tactic(auto)]

ghost use Rattle.std.specs.Prelude.{◌≡◌, ◌++◌, ℕ, ◌+◌, ◌-◌, ◌^◌, ◌≤◌, ◌<◌, length, take, drop};
ghost use Rattle.laws.specs.Sorted.{isort};
ghost use Rattle.texts.specs.Text.{by_key};
ghost use Rattle.write_text_keys.specs.Keys.{key_in, Placed};
ghost use Rattle.write_sorting.specs.Sorted.{up_from};
ghost use Rattle.write_interning.specs.Uses.{stored_of, texts_joined, stored_answer, Offsets, RisesFrom, Firsts, head_of};

use draft::layout::Layout;
use draft::source;
use draft::source::Source;

// Puts the uses 0 to n - 1 in the order of their texts, those of one text in their own order. The paths, which come last, are in order.
fn arrange(nodes: &[u32], strings: &[u8], w: &mut [u32], layout: Layout, n: usize, source: Source)
    requires texts_le_n { (layout.texts ≤ n) × (n + n ≤ layout.at) × Placed layout (length w.old) × (n < 2 ^ 32) }
    requires rises_from { RisesFrom (by_key (key_in source.version nodes.now strings.now layout w.old)) layout.texts n }
    ensures w_after { let key = key_in source.version nodes.now strings.now layout w.old in
        take n w.new ≡ isort (by_key key) (up_from 0 n) }
    ensures w_unchanged { drop layout.at w.new ≡ drop layout.at w.old }
{
    let m = layout.texts;
    write_sorting::number(w, 0, m);
    write_sorting::ensure_sorted(nodes, strings, w, layout, m, source);
    write_sorting::number(w, m, n);
    write_sorting::merge(nodes, strings, w, layout, m, n, source);
}

// The first use of the i-th use of the order.
#[tactic(auto, unfolding(crate::specs::Uses::head_of))]
fn head_of(
    nodes: &[u32],
    strings: &[u8],
    w: &[u32],
    layout: Layout,
    n: usize,
    i: usize,
    source: Source,
) -> u32
    requires { (n ≤ length w.now) × Placed layout (length w.now) }
    ensures { let key = key_in source.version nodes.now strings.now layout w.now in
        result ≡ head_of (by_key key) w.now n i }
{
    let use_here = source::word(w, i);
    if i == 0 {
        return use_here;
    }
    let use_before = source::word(w, i - 1);
    let first = source::word(w, n + use_before as usize);
    if write_text_keys::below(nodes, strings, w, layout, use_before, use_here, source) {
        return use_here;
    }
    first
}

// The order is in the first n words: each use's first use goes into the n words after them.
fn mark(nodes: &[u32], strings: &[u8], w: &mut [u32], layout: Layout, n: usize, source: Source)
    requires n_bound { (n + n ≤ layout.at) × Placed layout (length w.old) }
    requires w_value { take n w.old ≡ isort (by_key (key_in source.version nodes.now strings.now layout w.old)) (up_from 0 n) }
    ensures fact { let key = key_in source.version nodes.now strings.now layout w.old in
        Firsts key n w.new }
    ensures w_unchanged { drop layout.at w.new ≡ drop layout.at w.old }
{
    for i in 0..n {
        let first = head_of(nodes, strings, w, layout, n, i, source);
        let at = n + source::word(w, i) as usize;
        w[at] = first;
    }
}

// Each use's first use is in the n words after the first n: its text's offset comes there. The nodes serve the contract alone.
fn assign(
    nodes: &[u32],
    strings: &[u8],
    w: &mut [u32],
    layout: Layout,
    n: usize,
    source: Source,
) -> Option<usize>
    requires n_bound { (n + n ≤ layout.at) × Placed layout (length w.old) × (n < 2 ^ 32) }
    requires firsts { Firsts (key_in source.version nodes.now strings.now layout w.old) n w.old }
    ensures result_value { let key = key_in source.version nodes.now strings.now layout w.old in
        result ≡ stored_answer (length (texts_joined (stored_of key n))) }
    ensures offsets { let key = key_in source.version nodes.now strings.now layout w.old in
        length (texts_joined (stored_of key n)) < 2 ^ 32 → Offsets key n w.new }
    ensures w_unchanged { drop layout.at w.new ≡ drop layout.at w.old }
{
    let mut total = 0usize;
    for k in 0..n {
        let first = source::word(w, n + k);
        if first as usize == k {
            let len = write_text_keys::key_length(strings, w, layout, first);
            if 4294967295 - total < len {
                return None;
            }
            w[n + k] = total as u32;
            total += len;
        } else {
            w[n + k] = source::word(w, n + first as usize);
        }
    }
    Some(total)
}

// Gives each of the uses 0 to n - 1 the offset of its text among the stored texts, in the n words after the first n, which are worked in.
pub fn intern(
    nodes: &[u32],
    strings: &[u8],
    w: &mut [u32],
    layout: Layout,
    n: usize,
    source: Source,
) -> Option<usize>
    requires texts_le_n { (layout.texts ≤ n) × (n + n ≤ layout.at) × Placed layout (length w.old) × (n < 2 ^ 32) }
    requires rises_from { RisesFrom (by_key (key_in source.version nodes.now strings.now layout w.old)) layout.texts n }
    ensures result_value { let key = key_in source.version nodes.now strings.now layout w.old in
        result ≡ stored_answer (length (texts_joined (stored_of key n))) }
    ensures offsets { let key = key_in source.version nodes.now strings.now layout w.old in
        length (texts_joined (stored_of key n)) < 2 ^ 32 → Offsets key n w.new }
    ensures w_unchanged { drop layout.at w.new ≡ drop layout.at w.old }
{
    arrange(nodes, strings, w, layout, n, source);
    mark(nodes, strings, w, layout, n, source);
    assign(nodes, strings, w, layout, n, source)
}

// Writes the stored texts one after the other at the front of the output, given each use's offset.
pub fn emit(
    nodes: &[u32],
    strings: &[u8],
    w: &[u32],
    layout: Layout,
    n: usize,
    out: &mut [u8],
    source: Source,
)
    requires n_bound { (n + n ≤ layout.at) × Placed layout (length w.now) × (n < 2 ^ 32) }
    requires offsets { Offsets (key_in source.version nodes.now strings.now layout w.now) n w.now }
    requires n_in_bounds { length (texts_joined (stored_of (key_in source.version nodes.now strings.now layout w.now) n)) ≤ length out.old }
    ensures { let key = key_in source.version nodes.now strings.now layout w.now in
        out.new ≡ texts_joined (stored_of key n) ++ drop (length (texts_joined (stored_of key n))) out.old }
{
    let mut end = 0usize;
    for k in 0..n {
        if source::word(w, n + k) as usize == end {
            let len = write_text_keys::key_length(strings, w, layout, k as u32);
            write_text_keys::put_key(nodes, strings, w, layout, k as u32, &mut out[end..], source);
            end += len;
        }
    }
}
