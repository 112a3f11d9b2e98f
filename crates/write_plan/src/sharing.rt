// Texts that are alike and follow one another in the order of use are taken from one place in the strings, so that they are read once.
ghost use Rattle.std.specs.Prelude.{◌+◌, ◌≤◌, ◌<◌, length};
ghost use Rattle.write_plan.specs.Shared.{SameTexts};

use draft::layout::Layout;

// Takes the text of use `i` from the place of the one before it, if they are alike.
fn share_one(strings: &[u8], w: &mut [u32], layout: Layout, i: usize)
    requires { (0 < i) × (i < layout.texts) × (layout.at + layout.texts + layout.texts ≤ length w.old) }
    ensures { SameTexts strings.now layout.at layout.texts w.old w.new }
{
    let at = layout.at + i + i;
    let len = w[at + 1];
    if w[at - 1] != len {
        return;
    }
    let before = w[at - 2];
    let here = w[at];
    if here == before {
        return;
    }
    if texts::equal(
        image::text_part(strings, before, len),
        image::text_part(strings, here, len),
    ) {
        w[at] = before;
    }
}

// The same of every text in use.
pub fn share(strings: &[u8], w: &mut [u32], layout: Layout)
    requires { layout.at + layout.texts + layout.texts ≤ length w.old }
    ensures { SameTexts strings.now layout.at layout.texts w.old w.new }
{
    for i in 1..layout.texts {
        share_one(strings, w, layout, i);
    }
}
