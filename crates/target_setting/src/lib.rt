// The draft is written: each node for which a target was found gets it, and loses its path text, but for a divert-target value.
#![tactic(auto)]

ghost use Rattle.std.specs.Prelude.{◌≡◌, true, ◌+◌, ◌≤◌, length, get_or};
ghost use Rattle.words.specs.Words.{NONE as none};
ghost use Rattle.image.specs.Sections.{common_words};
ghost use Rattle.target_setting.specs.Setting.{follower_tag, NodeSet, Settable, AllSet};

use draft::source::Source;
use draft::{path_list, source};
use image::tag::{REFERENCE, TARGET_VALUE};
use image::{NONE, NodeRecord};

// Sets the target of the node whose words begin at `at`, and makes its path text absent: a divert-target value keeps its text. NONE is no target.
fn set_target(nodes: &mut [u32], at: usize, target: u32)
    requires common_words_in_bounds { at + common_words ≤ length nodes.old }
    requires at_value { (target ≡ none → ⊥) → follower_tag (get_or nodes.old (at + 2) 0) ≡ true }
    ensures { NodeSet at target nodes.old nodes.new }
{
    if target == NONE {
        return;
    }
    let tag = nodes[at + NodeRecord::TAG];
    if tag == REFERENCE {
        nodes[at + NodeRecord::F2] = NONE;
        nodes[at + NodeRecord::F3] = NONE;
        nodes[at + NodeRecord::F4] = target;
        return;
    }
    if tag != TARGET_VALUE {
        nodes[at + NodeRecord::F0] = NONE;
        nodes[at + NodeRecord::F1] = NONE;
        nodes[at + NodeRecord::F2] = target;
        return;
    }
    nodes[at + NodeRecord::F2] = target;
}

// Sets the target of every node that the list has, by the work word of its number: no other node has one.
pub fn set_targets(nodes: &mut [u32], work: &[u32], paths: &[u32], source: Source)
    requires { Settable source.version paths.now nodes.old work.now }
    ensures { AllSet source.version nodes.old work.now nodes.new }
{
    let count = path_list::path_count(paths);
    for k in 0..count {
        let i = path_list::entry_at(paths, k).node as usize;
        set_target(nodes, i * source::node_words(source), work[i]);
    }
}
