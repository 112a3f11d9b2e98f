// What a reader asks of an image by number: node views, children, named children, texts, list values. A query takes bytes
// and a view; it answers on any bytes and any view, a section outside the bytes counts as empty.
#![tactic(auto)]

pub mod entries; // entries.rt: entries of sections, where there are such
pub mod view; // view.rt: the view of a node
pub mod children; // children.rt: ordered and named children, texts
pub mod lists; // lists.rt: entries of list values, definitions and items by number

use names::control_command::CommandType;
use names::native_function_call::Op;

// A text, by its place in the strings; a list value, by its place in the payload.
#[derive(Clone, Copy)]
pub struct Span {
    pub offset: u32,
    pub len: u32,
}

#[derive(Clone, Copy)]
pub enum PushPopType {
    Tunnel,
    Function,
    FunctionEvaluationFromGame,
}

#[derive(Clone, Copy)]
pub enum ValueView {
    Bool(bool),
    Int(i32),
    // the field's 32 bits, and the number that they stand for
    Float { bits: u32, value: f32 },
    String(Span),
    List(Span),
    DivertTarget(Span),
    VariablePointer { name: Span, context_index: i32 },
}

#[derive(Clone, Copy)]
pub enum NodeKindView {
    Container {
        count_flags: i32,
        name: Option<Span>,
    },
    ChoicePoint {
        flags: i32,
        target: Option<u32>,
    },
    ControlCommand(CommandType),
    Divert {
        path: Option<Span>,
        target: Option<u32>,
        variable_name: Option<Span>,
        external_args: u32,
        conditional: bool,
        external: bool,
        pushes_to_stack: bool,
        stack_push_type: PushPopType,
    },
    Glue,
    NativeFunction(Op),
    Tag(Span),
    Value(ValueView),
    VariableAssignment {
        name: Span,
        global: bool,
        new_declaration: bool,
    },
    VariableReference {
        name: Span,
        count_target: Option<u32>,
    },
    Void,
}

#[derive(Clone, Copy)]
pub struct NodeView {
    pub parent: Option<u32>,
    pub child_index: Option<u32>,
    pub kind: NodeKindView,
}

#[derive(Clone, Copy)]
pub struct NamedChildView {
    pub name: Span,
    pub node: u32,
}

// An entry of a list value.
#[derive(Clone, Copy)]
pub struct ListEntry {
    pub origin: Option<Span>,
    pub name: Span,
    pub value: i32,
}

// A list definition: its name and how many items it has.
#[derive(Clone, Copy)]
pub struct DefinitionView {
    pub name: Span,
    pub items: u32,
}

// An item of a definition.
#[derive(Clone, Copy)]
pub struct ItemView {
    pub name: Span,
    pub value: i32,
}
