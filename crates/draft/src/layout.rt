// The writer's work words: what lies where.
// They are lent by C's caller: no heap is used.

// Where the parts begin. The first words are sorted: the uses of texts, first those of the draft's texts, then the paths. From `offsets` on
// stands for each use, in its own order, where its text begins in the image's strings. From `at` on lie the tables of uses: two words for
// each of the first `texts` uses (offset and length in the draft's strings); from `paths` on, counted from `at`, a node for each path; from
// `lengths` on, counted from `at`, two words for each node (the length of its path, low first). From `order` on stand the draft's numbers of
// the image's nodes, from `new` on the image's numbers of the draft's nodes. What is not known yet is 0.
#[derive(Clone, Copy)]
pub struct Layout {
    pub at: usize,
    pub texts: usize,
    pub paths: usize,
    pub lengths: usize,
    pub order: usize,
    pub new: usize,
    pub offsets: usize,
}
