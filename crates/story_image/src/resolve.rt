// Targets of a draft found from paths.
ghost use Rattle.std.specs.Prelude.{◌≡◌, length};
ghost use Rattle.image.specs.Header.{version};
ghost use Rattle.draft.specs.Source.{draft_of};
ghost use Rattle.draft.specs.Draft.{write_words};
ghost use Rattle.draft_image.specs.Encode.{encode_work_after};
ghost use Rattle.target_finding.specs.Targets.{resolve_rule, nodes_after, path_list};

use image::refusal::number_of;

// Sets the targets of the nodes that follow a path of the list; or gives the number of the first rule broken, and leaves the nodes as they
// were.
#[unsafe(no_mangle)]
pub extern "C" fn story_image_resolve_static_targets(
    ink: u32,
    nodes: &mut [u32],
    children: &[u32],
    named: &[u32],
    definitions: &[u32],
    items: &[u32],
    payload: &[u8],
    strings: &[u8],
    paths: &[u32],
    components: &[u32],
    names: &[u8],
    work: &mut [u32],
) -> u32
    ensures answer { let s = draft_of version nodes.old children.now named.now definitions.now
        items.now payload.now strings.now in
        let p = path_list paths.now components.now names.now in
        result ≡ resolve_rule ink s p (length work.old) }
    ensures draft { let s = draft_of version nodes.old children.now named.now definitions.now
        items.now payload.now strings.now in
        let p = path_list paths.now components.now names.now in
        nodes.new ≡ nodes_after (resolve_rule ink s p (length work.old)) s p }
    ensures words { let s = draft_of version nodes.old children.now named.now definitions.now
        items.now payload.now strings.now in
        let p = path_list paths.now components.now names.now in
        work.new ≡ encode_work_after (write_words s) (resolve_rule ink s p (length work.old)) work.old }
{
    number_of(static_targets::resolve_static_targets(
        ink,
        nodes,
        children,
        named,
        definitions,
        items,
        payload,
        strings,
        paths,
        components,
        names,
        work,
    ))
}
