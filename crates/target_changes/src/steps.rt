// The words of the old and the new node. NONE has no word.
ghost use Rattle.std.specs.Prelude.{◌≡◌};
ghost use Rattle.image.specs.Refusals.{refusal_in};
ghost use Rattle.target_changes.specs.Change.{can_fall, can_rise, step_rule, fallen, risen, stepped};
ghost use Rattle.target_changes.specs.Steps.{Falls, Rises, Steps};

use draft::source;
use image::NONE;
use image::refusal::Refusal;

// Whether the word of a node can go down by 1.
fn can_fall(summary: &[u32], n: u32) -> bool
    ensures { result ≡ can_fall summary.now n }
{
    if n == NONE {
        return true;
    }
    source::word(summary, n as usize) != 0
}

// Whether the word of a node can go up by 1.
fn can_rise(summary: &[u32], n: u32) -> bool
    ensures { result ≡ can_rise summary.now n }
{
    if n == NONE {
        return true;
    }
    source::word(summary, n as usize) < NONE
}

// Whether the words can take their step.
pub fn step_rule(summary: &[u32], old: u32, new: u32) -> Result<(), Refusal>
    ensures { refusal_in result ≡ step_rule summary.now old new }
{
    if old == new {
        return Ok(());
    }
    if !can_fall(summary, old) {
        return Err(Refusal::BadSummary);
    }
    if can_rise(summary, new) {
        Ok(())
    } else {
        Err(Refusal::BadSummary)
    }
}

// Takes the word of a node down by 1.
fn fall(summary: &mut [u32], n: u32)
    requires { Falls summary.old n }
    ensures { summary.new ≡ fallen summary.old n }
{
    if n == NONE {
        return;
    }
    let at = n as usize;
    summary[at] -= 1;
}

// Takes the word of a node up by 1.
fn rise(summary: &mut [u32], n: u32)
    requires { Rises summary.old n }
    ensures { summary.new ≡ risen summary.old n }
{
    if n == NONE {
        return;
    }
    let at = n as usize;
    summary[at] += 1;
}

// One word down, one up; none where the target stays.
pub fn step(summary: &mut [u32], old: u32, new: u32)
    requires { Steps summary.old old new }
    ensures { summary.new ≡ stepped summary.old old new }
{
    if old == new {
        return;
    }
    fall(summary, old);
    rise(summary, new);
}
