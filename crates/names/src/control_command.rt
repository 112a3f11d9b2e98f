// The 26 commands, by name and by number.
ghost use Rattle.std.specs.Prelude.{◌≡◌, [], get_or};
ghost use Rattle.names.specs.Names.{commands, number_in};
ghost use Rattle.names.specs.Spelling.{element_at, name_of};
ghost use Rattle.names.specs.Table.{listed};
ghost use Rattle.names.specs.ControlCommand.{command_number, command_types, command_named};

use crate::Name;
use crate::table::Table;

#[derive(Clone, Copy)]
pub enum CommandType {
    EvalStart = 0,
    EvalOutput = 1,
    EvalEnd = 2,
    Duplicate = 3,
    PopEvaluatedValue = 4,
    PopFunction = 5,
    PopTunnel = 6,
    BeginString = 7,
    EndString = 8,
    NoOp = 9,
    ChoiceCount = 10,
    Turns = 11,
    TurnsSince = 12,
    ReadCount = 13,
    Random = 14,
    SeedRandom = 15,
    VisitIndex = 16,
    SequenceShuffleIndex = 17,
    StartThread = 18,
    Done = 19,
    End = 20,
    ListFromInt = 21,
    ListRange = 22,
    ListRandom = 23,
    BeginTag = 24,
    EndTag = 25,
}

// By number.
const COMMANDS: [CommandType; 26] = [
    CommandType::EvalStart,
    CommandType::EvalOutput,
    CommandType::EvalEnd,
    CommandType::Duplicate,
    CommandType::PopEvaluatedValue,
    CommandType::PopFunction,
    CommandType::PopTunnel,
    CommandType::BeginString,
    CommandType::EndString,
    CommandType::NoOp,
    CommandType::ChoiceCount,
    CommandType::Turns,
    CommandType::TurnsSince,
    CommandType::ReadCount,
    CommandType::Random,
    CommandType::SeedRandom,
    CommandType::VisitIndex,
    CommandType::SequenceShuffleIndex,
    CommandType::StartThread,
    CommandType::Done,
    CommandType::End,
    CommandType::ListFromInt,
    CommandType::ListRange,
    CommandType::ListRandom,
    CommandType::BeginTag,
    CommandType::EndTag,
];

// The names, by number and by hash.
fn names() -> Table<'static, 58>
    ensures { listed result.names.now result.starts.now ≡ commands }
{
    Table {
        names: b"evout/evdupop~ret->->str/strnopchoiceCntturnturnsreadcrndsrndvisitseqthreaddoneendlistIntrangelrnd#/#",
        starts: &[
            0, 2, 5, 8, 10, 13, 17, 21, 24, 28, 31, 40, 44, 49, 54, 57, 61, 66, 69, 75, 79, 82, 89,
            94, 98, 99, 101,
        ],
        by_hash: &[
            0, 6, 12, 17, 22, 0, 0, 0, 14, 0, 0, 0, 4, 0, 0, 0, 0, 0, 0, 0, 18, 2, 19, 0, 9, 1, 0,
            0, 16, 10, 5, 0, 0, 0, 3, 0, 11, 0, 0, 15, 0, 7, 0, 0, 13, 0, 21, 0, 0, 25, 0, 8, 23,
            0, 0, 24, 0, 20,
        ],
    }
}

// The number of a command: its place in FORMAT.md's table.
pub fn number_of(command: CommandType) -> u8
    ensures { result ≡ command_number command }
{
    command as u8
}

// The command of a number.
pub fn command_of(number: u8) -> Option<CommandType>
    ensures { result ≡ element_at command_types number }
{
    COMMANDS.get(usize::from(number)).copied()
}

// How a command is spelled.
pub fn get_name(command: CommandType) -> Name
    ensures { result ≡ name_of (get_or commands (command_number command) []) }
{
    names().name(number_of(command))
}

// The number of the command that a text names.
pub fn command_number(text: &[u8]) -> Option<u8>
    ensures { result ≡ number_in commands text.now }
{
    names().number(text)
}

// The command that a text names.
pub fn new_from_name(text: &[u8]) -> Option<CommandType>
    ensures { result ≡ command_named text.now }
{
    command_of(command_number(text)?)
}
