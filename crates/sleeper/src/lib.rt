// The sleeper's reader: what the technician's shows, with notes to the technician as void, and texts as bytes, never as offsets. Its view of
// an image holds no place; a query takes bytes and such a view and answers on any of them.
#![tactic(auto)]

pub mod view; // view.rt: the view of a node
pub mod node_words; // node_words.rt: the view of a node in words
pub mod text; // text.rt: texts as bytes
pub mod children; // children.rt: ordered and named children
pub mod lists; // lists.rt: list values, definitions and items by number
pub mod search; // search.rt: look-ups by name, walks, depth
mod sections; // sections.rt: where sections lie
mod places; // places.rt: where texts lie

ghost use Rattle.std.specs.Prelude.{◌≡◌, length};
ghost use Rattle.image.specs.Refusals.{numbered};
ghost use Rattle.image.specs.Header.{sections_of};
ghost use Rattle.load.specs.Load.{load_rule, load_words, work_after};
ghost use Rattle.sleeper.specs.Reader.{without_places, sleeper_loaded};

use image::ImageView;
use image::refusal::Refusal;
use names::control_command::CommandType;
use names::native_function_call::Op;
use views::PushPopType;

// What the sleeper's reader keeps of a header: the versions, and how many entries each section has, of the payload bytes. It holds no place,
// and not the strings' length, which is one of the three that only the technician's reader tells.
#[derive(Clone, Copy)]
pub struct SleeperView {
    pub version: u32,
    pub ink_version: u32,
    pub nodes: u32,
    pub children: u32,
    pub named: u32,
    pub definitions: u32,
    pub items: u32,
    pub index: u32,
    pub payload: u32,
}

// As `views::ValueView`, without the places of texts and payload.
#[derive(Clone, Copy)]
pub enum SleeperValue {
    Bool(bool),
    Int(i32),
    Float { bits: u32, value: f32 },
    String,
    List,
    DivertTarget,
    VariablePointer { context_index: i32 },
}

// As `views::NodeKindView`, with whether an optional text is there.
#[derive(Clone, Copy)]
pub enum SleeperKind {
    Container {
        count_flags: i32,
        name: bool,
    },
    ChoicePoint {
        flags: i32,
        target: Option<u32>,
    },
    ControlCommand(CommandType),
    Divert {
        path: bool,
        target: Option<u32>,
        variable_name: bool,
        external_args: u32,
        conditional: bool,
        external: bool,
        pushes_to_stack: bool,
        stack_push_type: PushPopType,
    },
    Glue,
    NativeFunction(Op),
    Tag,
    Value(SleeperValue),
    VariableAssignment {
        global: bool,
        new_declaration: bool,
    },
    VariableReference {
        count_target: Option<u32>,
    },
    Void,
}

#[derive(Clone, Copy)]
pub struct SleeperNode {
    pub parent: Option<u32>,
    pub child_index: Option<u32>,
    pub kind: SleeperKind,
}

// An entry of a list value: whether it names an origin, and its value.
#[derive(Clone, Copy)]
pub struct SleeperEntry {
    pub origin: bool,
    pub value: i32,
}

// Which text: a node's (name, path or text), the variable of a divert; of a container the name of its j-th named child; of a definition, of
// its j-th item, of item k of all; of a list value the name and the origin of its j-th item, its j-th origin.
#[derive(Clone, Copy)]
pub enum Which {
    Node(u32),
    Variable(u32),
    NamedChild(u32, u32),
    Definition(u32),
    DefinitionItem(u32, u32),
    Item(usize),
    EntryName(u32, u32),
    EntryOrigin(u32, u32),
    Origin(u32, u32),
}

// The sleeper's view of an image whose view is known.
fn without_places(view: ImageView) -> SleeperView
    ensures { result ≡ without_places view }
{
    SleeperView {
        version: view.version,
        ink_version: view.ink_version,
        nodes: view.nodes.count,
        children: view.children.count,
        named: view.named.count,
        definitions: view.definitions.count,
        items: view.items.count,
        index: view.index.count,
        payload: view.payload.count,
    }
}

// Loads an image for the sleeper's reader: as `load::load`, with the sleeper's view.
pub fn load(bytes: &[u8], work: &mut [u32]) -> Result<SleeperView, Refusal>
    ensures answer { numbered result ≡ sleeper_loaded bytes.now (length work.old) }
    ensures words { let bs = bytes.now in
        work.new ≡ work_after (load_words (sections_of bs)) (load_rule bs (length work.old)) work.old }
{
    let view = load::load(bytes, work)?;
    Ok(without_places(view))
}
