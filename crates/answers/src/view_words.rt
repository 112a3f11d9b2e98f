// A node's view, as it is answered, in ten words. Module node takes the same words straight from the record.
// `put_node` answers the number that the C interface gives: 0, or NOT_FOUND.
ghost use Rattle.std.specs.Prelude.{◌≡◌, ◌≤◌};
ghost use Rattle.words.specs.Words.{NONE};
ghost use Rattle.names.specs.ControlCommand.{command_number};
ghost use Rattle.names.specs.NativeFunctionCall.{operator_number};
ghost use Rattle.image.specs.Tags.{container_tag, choice_tag, command_tag, divert_tag, operator_tag, assignment_tag};
ghost use Rattle.answers.specs.AnswerWords.{Answered, unsigned, word_or, span_or, no_span, bit_if};
ghost use Rattle.answers.specs.NodeViewWords.{eight_words, push_number, divert_flags, assignment_flags, value_words, kind_words, node_view_words, node_answer};
ghost use Rattle.answers.specs.RecordWords.{eight_of, text_alone, value_alone};

use crate::node::{KindWords, text_alone, value_alone};
use crate::{NOT_FOUND, no_span, put_answer, span_or, unsigned_of};
use image::{NONE, tag};
use names::control_command::CommandType;
use names::native_function_call::Op;
use views::{NodeKindView, NodeView, PushPopType, Span, ValueView};

// A node or a place, or NONE.
fn word_or(word: Option<u32>) -> u32
    ensures { result ≡ word_or word }
{
    match word {
        Some(present) => present,
        None => NONE,
    }
}

// The word where the flag is set, else 0.
fn bit_if(flag: bool, word: u32) -> u32
    ensures value { result ≡ bit_if flag word }
    ensures most { result ≤ word }
{
    if flag { word } else { 0 }
}

// Eight times the push type.
fn push_number(push: PushPopType) -> u32
    ensures value { result ≡ push_number push }
    ensures most { result ≤ 16 }
{
    match push {
        PushPopType::Tunnel => 0,
        PushPopType::Function => 8,
        PushPopType::FunctionEvaluationFromGame => 16,
    }
}

// The three flags of a divert and its push type.
fn divert_flags(conditional: bool, external: bool, pushes: bool, push: PushPopType) -> u32
    ensures { result ≡ divert_flags conditional external pushes push }
{
    bit_if(conditional, 1) + bit_if(external, 2) + bit_if(pushes, 4) + push_number(push)
}

// Name and flags.
fn container(flags: i32, name: Option<Span>) -> KindWords
    ensures { result ≡ text_alone container_tag (span_or name) NONE 0 (unsigned flags) }
{
    text_alone(tag::CONTAINER, span_or(name), NONE, 0, unsigned_of(flags))
}

// Target and flags.
fn choice(flags: i32, target: Option<u32>) -> KindWords
    ensures { result ≡ text_alone choice_tag no_span (word_or target) 0 (unsigned flags) }
{
    text_alone(
        tag::CHOICE,
        no_span(),
        word_or(target),
        0,
        unsigned_of(flags),
    )
}

// A command, by its number.
fn command(name: CommandType) -> KindWords
    ensures { result ≡ value_alone command_tag (command_number name) }
{
    value_alone(tag::COMMAND, names::control_command::number_of(name) as u32)
}

// An operator, by its number.
fn operator(op: Op) -> KindWords
    ensures { result ≡ value_alone operator_tag (operator_number op) }
{
    value_alone(
        tag::OPERATOR,
        names::native_function_call::number_of(op) as u32,
    )
}

// Path, variable, target, number of arguments, flags.
fn divert(text: Span, variable: Span, target: u32, arguments: u32, flags: u32) -> KindWords
    ensures { eight_of result ≡ eight_words divert_tag text variable target arguments flags }
{
    KindWords {
        tag: tag::DIVERT,
        text,
        variable,
        target,
        value: arguments,
        flags,
    }
}

// Name and flags.
fn assignment(name: Span, global: bool, declares: bool) -> KindWords
    ensures { result ≡ text_alone assignment_tag name NONE 0 (assignment_flags global declares) }
{
    let flags = bit_if(global, 1) + bit_if(declares, 2);
    text_alone(tag::ASSIGNMENT, name, NONE, 0, flags)
}

// The words of a value.
fn words_of_value(value: ValueView) -> KindWords
    ensures { eight_of result ≡ value_words value }
{
    match value {
        ValueView::Bool(flag) => value_alone(tag::BOOL_VALUE, bit_if(flag, 1)),
        ValueView::Int(number) => value_alone(tag::INT_VALUE, unsigned_of(number)),
        ValueView::Float { bits, value: _ } => value_alone(tag::FLOAT_VALUE, bits),
        ValueView::String(text) => text_alone(tag::STRING_VALUE, text, NONE, 0, 0),
        ValueView::List(list) => text_alone(tag::LIST_VALUE, list, NONE, 0, 0),
        ValueView::DivertTarget(text) => text_alone(tag::TARGET_VALUE, text, NONE, 0, 0),
        ValueView::VariablePointer {
            name,
            context_index,
        } => {
            text_alone(
                tag::POINTER_VALUE,
                name,
                NONE,
                unsigned_of(context_index),
                0,
            )
        }
    }
}

// The words of a kind.
fn words_of_kind(kind: NodeKindView) -> KindWords
    ensures { eight_of result ≡ kind_words kind }
{
    match kind {
        NodeKindView::Container { count_flags, name } => container(count_flags, name),
        NodeKindView::ChoicePoint { flags, target } => choice(flags, target),
        NodeKindView::ControlCommand(name) => command(name),
        NodeKindView::Divert {
            path,
            target,
            variable_name,
            external_args,
            conditional,
            external,
            pushes_to_stack,
            stack_push_type,
        } => divert(
            span_or(path),
            span_or(variable_name),
            word_or(target),
            external_args,
            divert_flags(conditional, external, pushes_to_stack, stack_push_type),
        ),
        NodeKindView::Glue => value_alone(tag::GLUE, 0),
        NodeKindView::NativeFunction(op) => operator(op),
        NodeKindView::Tag(text) => text_alone(tag::TAG, text, NONE, 0, 0),
        NodeKindView::Value(value) => words_of_value(value),
        NodeKindView::VariableAssignment {
            name,
            global,
            new_declaration,
        } => assignment(name, global, new_declaration),
        NodeKindView::VariableReference { name, count_target } => {
            text_alone(tag::REFERENCE, name, word_or(count_target), 0, 0)
        }
        NodeKindView::Void => value_alone(tag::VOID, 0),
    }
}

// Parent, place, then the words of the kind.
fn node_words(view: NodeView) -> [u32; 10]
    ensures { result ≡ node_view_words view }
{
    let kind = view.kind;
    let parent = view.parent;
    let place = view.child_index;
    let words = words_of_kind(kind);
    [
        word_or(parent),
        word_or(place),
        words.tag,
        words.text.offset,
        words.text.len,
        words.variable.offset,
        words.variable.len,
        words.target,
        words.value,
        words.flags,
    ]
}

// The words of a view that was answered.
// Beside `lists::put_entry` only the words' function differs; what is alike is `put_answer`.
pub fn put_node(view: Option<NodeView>, answer: &mut [u32]) -> u32
    ensures { Answered (node_answer view) answer.old answer.new result }
{
    match view {
        None => NOT_FOUND,
        Some(node) => {
            let words = node_words(node);
            put_answer(&words, answer)
        }
    }
}
