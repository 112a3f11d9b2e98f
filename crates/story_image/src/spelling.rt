// Texts of commands and operators, by number.
ghost use Rattle.std.specs.Prelude.{◌≤◌, ◌≡◌, length};
ghost use Rattle.names.specs.Names.{commands, operators};
ghost use Rattle.names.specs.Spelling.{spelled, element_at};
ghost use Rattle.answers.specs.Lent.{Spelled};

use answers::NOT_FOUND;
use names::Name;

// Writes a name at the start of the text and its length as the first of the words that are lent for it.
fn put_name(name: Name, text: &mut [u8], size: &mut [u32]) -> u32
    requires { (name.len ≤ 11) × (length name.bytes ≡ 11) }
    ensures { Spelled (Some (spelled name)) text.old text.new size.old size.new result }
{
    let len = name.len;
    let bytes = name.bytes;
    answers::put_text_copy(&bytes[..len], len as u32, text, size)
}

// The text of a command's number, as a node's view gives it.
#[unsafe(no_mangle)]
pub extern "C" fn story_image_command_name(number: u32, text: &mut [u8], size: &mut [u32]) -> u32
    ensures { Spelled (element_at commands number) text.old text.new size.old size.new result }
{
    if 26 <= number {
        return NOT_FOUND;
    }
    match names::control_command::command_of(number as u8) {
        None => NOT_FOUND,
        Some(command) => put_name(names::control_command::get_name(command), text, size),
    }
}

// The text of an operator's number, as a node's view gives it.
#[unsafe(no_mangle)]
pub extern "C" fn story_image_operator_name(number: u32, text: &mut [u8], size: &mut [u32]) -> u32
    ensures { Spelled (element_at operators number) text.old text.new size.old size.new result }
{
    if 31 <= number {
        return NOT_FOUND;
    }
    match names::native_function_call::operator_of(number as u8) {
        None => NOT_FOUND,
        Some(op) => put_name(names::native_function_call::get_name(op), text, size),
    }
}
