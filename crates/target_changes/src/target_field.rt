// The target of a draft's node: what may stand there, and its word.
ghost use Rattle.std.specs.Prelude.{◌≡◌, ◌+◌, ◌≤◌, length, set};
ghost use Rattle.image.specs.Sections.{common_words};
ghost use Rattle.records.specs.Fields.{kind_of};
ghost use Rattle.target_changes.specs.Steps.{allowed_by, place_by};

use image::{NodeRecord, tag};

// Whether a node of the first tag may have the target, whose tag is the second.
pub fn is_allowed(node_tag: u32, nodes: usize, target: u32, target_tag: u32) -> bool
    ensures { result ≡ allowed_by (kind_of node_tag) nodes target target_tag }
{
    match node_tag {
        tag::CHOICE => records::is_container(nodes, target, target_tag),
        tag::DIVERT => records::is_optional_node(nodes, target),
        tag::TARGET_VALUE => image::is_inside(nodes, target),
        tag::REFERENCE => records::is_optional_container(nodes, target, target_tag),
        _ => false,
    }
}

// Writes the target of the node whose words begin at `at`, by the tag of a kind that has one.
pub fn put_target(nodes: &mut [u32], at: usize, node_tag: u32, target: u32)
    requires { at + common_words ≤ length nodes.old }
    ensures { nodes.new ≡ set nodes.old (at + (3 + place_by node_tag)) target }
{
    if node_tag == tag::REFERENCE {
        nodes[at + NodeRecord::F4] = target;
        return;
    }
    nodes[at + NodeRecord::F2] = target;
}
