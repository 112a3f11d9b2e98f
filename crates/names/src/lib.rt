// The names of 26 commands and 31 operators.
#![tactic(auto)]

pub mod control_command; // control_command.rt: the commands
pub mod native_function_call; // native_function_call.rt: the operators
mod table; // table.rt: names by number and by hash

ghost use Rattle.std.specs.Prelude.{◌≡◌, ◌≤◌, length};
ghost use Rattle.names.specs.Spelling.{name_of, hash_of};

// A name's bytes, with zeros behind them.
#[derive(Clone, Copy)]
pub struct Name {
    pub len: usize,
    pub bytes: [u8; 11],
}

// The name that has these bytes.
fn name_of(text: &[u8]) -> Name
    requires { length text.now ≤ 11 }
    ensures { result ≡ name_of text.now }
{
    let mut bytes = [0; 11];
    bytes[..text.len()].copy_from_slice(text);
    Name {
        len: text.len(),
        bytes,
    }
}

// No two commands agree in it modulo 58, and no two operators modulo 54.
fn hash(text: &[u8]) -> usize
    ensures { result ≡ hash_of text.now }
{
    let (Some(first), Some(last)) = (text.first(), text.last()) else {
        return 0;
    };
    usize::from(*first) * 23 + usize::from(*last) * 38 + text.len() % 16 * 8
}
