// A stable merge sort of uses by their texts, in one lent slice: the first words are sorted, those after them are worked in, and the tables
// by which texts are compared lie behind both.
// The work words are lent by C's caller: no heap is used.
#![tactic(auto)]

ghost use Rattle.std.specs.Prelude.{◌≡◌, true, ◌≤◌, ◌<◌, ◌+◌, ◌-◌, ◌^◌, length, take, drop};
ghost use Rattle.laws.specs.Sorted.{isort};
ghost use Rattle.texts.specs.Text.{by_key};
ghost use Rattle.write_text_keys.specs.Keys.{key_in, Placed};
ghost use Rattle.write_sorting.specs.Sorted.{merge, takes_right, part, Ordered, up_from};

use draft::layout::Layout;
use draft::source::Source;

// Writes the numbers from `from` up to `to` into the words that they number.
pub fn number(w: &mut [u32], from: usize, to: usize)
    requires { (from ≤ to) × (to ≤ length w.old) × (to < 2 ^ 32) }
    ensures { (take from w.new ≡ take from w.old) × (part from to w.new ≡ up_from from (to - from))
        × (drop to w.new ≡ drop to w.old) }
{
    for i in from..to {
        w[i] = i as u32;
    }
}

// Whether a merge of the words from n + i on and those from j up to n goes on with the latter.
#[tactic(auto, unfolding(crate::specs::Sorted::takes_right))]
fn takes_right(
    nodes: &[u32],
    strings: &[u8],
    w: &[u32],
    layout: Layout,
    n: usize,
    i: usize,
    j: usize,
    source: Source,
) -> bool
    requires { (n + i < length w.now) × Placed layout (length w.now) }
    ensures { let lt = by_key (key_in source.version nodes.now strings.now layout w.now) in
        result ≡ takes_right lt w.now n i j }
{
    j < n && write_text_keys::below(nodes, strings, w, layout, w[j], w[n + i], source)
}

// Merges the m words from n on and those from m up to n into the first n words.
fn merge_parts(
    nodes: &[u32],
    strings: &[u8],
    w: &mut [u32],
    layout: Layout,
    m: usize,
    n: usize,
    source: Source,
)
    requires { (m ≤ n) × (n + m ≤ layout.at) × Placed layout (length w.old) }
    ensures w_after { let lt = by_key (key_in source.version nodes.now strings.now layout w.old) in
        take n w.new ≡ merge lt (part n (n + m) w.old) (part m n w.old) }
    ensures w_unchanged { drop layout.at w.new ≡ drop layout.at w.old }
{
    let mut i = 0;
    let mut j = m;
    let mut k = 0;
    // By index: of two parts, each at its own pace, into a third of the same slice.
    while i < m {
        if takes_right(nodes, strings, w, layout, n, i, j, source) {
            w[k] = w[j];
            j += 1;
        } else {
            w[k] = w[n + i];
            i += 1;
        }
        k += 1;
    }
}

// Merges the m words from n on, which are in order, and those from m up to n into the first n words. Where the two stand in order they are
// put one after the other.
fn join_parts(
    nodes: &[u32],
    strings: &[u8],
    w: &mut [u32],
    layout: Layout,
    m: usize,
    n: usize,
    source: Source,
)
    requires m_nonzero { (0 < m) × (m < n) × (n + m ≤ layout.at) × Placed layout (length w.old) }
    requires ordered { Ordered (by_key (key_in source.version nodes.now strings.now layout w.old)) (part n (n + m) w.old) }
    ensures w_after { let lt = by_key (key_in source.version nodes.now strings.now layout w.old) in
        take n w.new ≡ merge lt (part n (n + m) w.old) (part m n w.old) }
    ensures w_unchanged { drop layout.at w.new ≡ drop layout.at w.old }
{
    let last = w[n + m - 1];
    let first = w[m];
    if write_text_keys::below(nodes, strings, w, layout, first, last, source) {
        merge_parts(nodes, strings, w, layout, m, n, source);
    } else {
        w.copy_within(n..n + m, 0);
    }
}

// Sorts the first n words by their texts; the n words after them are worked in. A part of the words has the tables of uses nearer to its
// start; of the layout nothing else is used here.
pub fn sort(nodes: &[u32], strings: &[u8], w: &mut [u32], layout: Layout, n: usize, source: Source)
    requires { (n + n ≤ layout.at) × Placed layout (length w.old) }
    ensures w_after { let lt = by_key (key_in source.version nodes.now strings.now layout w.old) in
        take n w.new ≡ isort lt (take n w.old) }
    ensures w_unchanged { drop layout.at w.new ≡ drop layout.at w.old }
{
    if n < 2 {
        return;
    }
    let m = n / 2;
    let second = Layout {
        at: layout.at - m,
        ..layout
    };
    sort(nodes, strings, &mut w[m..], second, n - m, source);
    w.copy_within(..m, n);
    let first = Layout {
        at: layout.at - n,
        ..layout
    };
    sort(nodes, strings, &mut w[n..], first, m, source);
    join_parts(nodes, strings, w, layout, m, n, source);
}

// Whether the first n words stand in the order of their texts. False is always allowed: it only costs a sort.
fn in_order(
    nodes: &[u32],
    strings: &[u8],
    w: &[u32],
    layout: Layout,
    n: usize,
    source: Source,
) -> bool
    requires { (n ≤ length w.now) × Placed layout (length w.now) }
    ensures { let lt = by_key (key_in source.version nodes.now strings.now layout w.now) in
        result ≡ true → Ordered lt (take n w.now) }
{
    (1..n).all(|i| !write_text_keys::below(nodes, strings, w, layout, w[i], w[i - 1], source))
}

// Sorts the first n words by their texts, unless they stand in order already; the n words after them are worked in.
pub fn ensure_sorted(
    nodes: &[u32],
    strings: &[u8],
    w: &mut [u32],
    layout: Layout,
    n: usize,
    source: Source,
)
    requires { (n + n ≤ layout.at) × Placed layout (length w.old) }
    ensures w_after { let lt = by_key (key_in source.version nodes.now strings.now layout w.old) in
        take n w.new ≡ isort lt (take n w.old) }
    ensures w_unchanged { drop layout.at w.new ≡ drop layout.at w.old }
{
    if in_order(nodes, strings, w, layout, n, source) {
        return;
    }
    sort(nodes, strings, w, layout, n, source);
}

// Merges the first m words and those from m up to n, each part in order, into the first n words; the m words after them are worked in.
pub fn merge(
    nodes: &[u32],
    strings: &[u8],
    w: &mut [u32],
    layout: Layout,
    m: usize,
    n: usize,
    source: Source,
)
    requires m_le_n { (m ≤ n) × (n + m ≤ layout.at) × Placed layout (length w.old) }
    requires ordered { Ordered (by_key (key_in source.version nodes.now strings.now layout w.old)) (take m w.old) }
    ensures w_after { let lt = by_key (key_in source.version nodes.now strings.now layout w.old) in
        take n w.new ≡ merge lt (take m w.old) (part m n w.old) }
    ensures w_unchanged { drop layout.at w.new ≡ drop layout.at w.old }
{
    if m == 0 {
        return;
    }
    if m == n {
        return;
    }
    w.copy_within(..m, n);
    join_parts(nodes, strings, w, layout, m, n, source);
}
