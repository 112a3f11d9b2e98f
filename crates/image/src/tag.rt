// The tags of FORMAT.md's kinds of nodes.
// Numbers: any word may stand in an image or a draft, and `records::fields_rule` answers for each; an enum would add a conversion that can
// fail wherever a node is read.

pub const CONTAINER: u32 = 1;

pub const CHOICE: u32 = 2;

pub const COMMAND: u32 = 3;

pub const DIVERT: u32 = 4;

pub const GLUE: u32 = 5;

pub const OPERATOR: u32 = 6;

pub const TAG: u32 = 7;

pub const BOOL_VALUE: u32 = 8;

pub const INT_VALUE: u32 = 9;

pub const FLOAT_VALUE: u32 = 10;

pub const STRING_VALUE: u32 = 11;

pub const LIST_VALUE: u32 = 12;

pub const TARGET_VALUE: u32 = 13;

pub const POINTER_VALUE: u32 = 14;

pub const ASSIGNMENT: u32 = 16;

pub const REFERENCE: u32 = 17;

pub const VOID: u32 = 18;
