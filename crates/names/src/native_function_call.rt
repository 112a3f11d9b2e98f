// The 31 operators, by name and by number.
ghost use Rattle.std.specs.Prelude.{◌≡◌, [], get_or};
ghost use Rattle.names.specs.Names.{operators, number_in};
ghost use Rattle.names.specs.Spelling.{element_at, name_of};
ghost use Rattle.names.specs.Table.{listed};
ghost use Rattle.names.specs.NativeFunctionCall.{operator_number, ops, operator_named};

use crate::Name;
use crate::table::Table;

#[derive(Clone, Copy)]
pub enum Op {
    Add = 0,
    Subtract = 1,
    Divide = 2,
    Multiply = 3,
    Mod = 4,
    Negate = 5,
    Equal = 6,
    Greater = 7,
    Less = 8,
    GreaterThanOrEquals = 9,
    LessThanOrEquals = 10,
    NotEquals = 11,
    Not = 12,
    And = 13,
    Or = 14,
    Min = 15,
    Max = 16,
    Pow = 17,
    Floor = 18,
    Ceiling = 19,
    Int = 20,
    Float = 21,
    Has = 22,
    Hasnt = 23,
    Intersect = 24,
    ListMin = 25,
    ListMax = 26,
    All = 27,
    Count = 28,
    ValueOfList = 29,
    Invert = 30,
}

// By number.
const OPERATORS: [Op; 31] = [
    Op::Add,
    Op::Subtract,
    Op::Divide,
    Op::Multiply,
    Op::Mod,
    Op::Negate,
    Op::Equal,
    Op::Greater,
    Op::Less,
    Op::GreaterThanOrEquals,
    Op::LessThanOrEquals,
    Op::NotEquals,
    Op::Not,
    Op::And,
    Op::Or,
    Op::Min,
    Op::Max,
    Op::Pow,
    Op::Floor,
    Op::Ceiling,
    Op::Int,
    Op::Float,
    Op::Has,
    Op::Hasnt,
    Op::Intersect,
    Op::ListMin,
    Op::ListMax,
    Op::All,
    Op::Count,
    Op::ValueOfList,
    Op::Invert,
];

// The names, by number and by hash.
fn names() -> Table<'static, 54>
    ensures { listed result.names.now result.starts.now ≡ operators }
{
    Table {
        names: b"+-/*%_==><>=<=!=!&&||MINMAXPOWFLOORCEILINGINTFLOAT?!?^LIST_MINLIST_MAXLIST_ALLLIST_COUNTLIST_VALUELIST_INVERT",
        starts: &[
            0, 1, 2, 3, 4, 5, 6, 8, 9, 10, 12, 14, 16, 17, 19, 21, 24, 27, 30, 35, 42, 45, 50, 51,
            53, 54, 62, 70, 78, 88, 98, 109,
        ],
        by_hash: &[
            0, 0, 27, 0, 0, 0, 30, 15, 0, 16, 7, 6, 13, 2, 18, 11, 0, 22, 24, 0, 14, 0, 29, 12, 25,
            5, 26, 0, 0, 19, 0, 0, 3, 0, 9, 20, 21, 23, 0, 0, 17, 0, 10, 0, 0, 0, 0, 0, 0, 0, 8, 4,
            28, 1,
        ],
    }
}

// The number of an operator: its place in FORMAT.md's table.
pub fn number_of(op: Op) -> u8
    ensures { result ≡ operator_number op }
{
    op as u8
}

// The operator of a number.
pub fn operator_of(number: u8) -> Option<Op>
    ensures { result ≡ element_at ops number }
{
    OPERATORS.get(usize::from(number)).copied()
}

// How an operator is spelled.
pub fn get_name(op: Op) -> Name
    ensures { result ≡ name_of (get_or operators (operator_number op) []) }
{
    names().name(number_of(op))
}

// The number of the operator that a text names.
pub fn operator_number(text: &[u8]) -> Option<u8>
    ensures { result ≡ number_in operators text.now }
{
    names().number(text)
}

// The operator that a text names.
pub fn new_from_name(text: &[u8]) -> Option<Op>
    ensures { result ≡ operator_named text.now }
{
    operator_of(operator_number(text)?)
}
