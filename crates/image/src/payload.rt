// A list's payload: two counts, then items, then origins. Bytes of each, and where their words stand.

pub const HEAD_BYTES: usize = 8;

pub const ITEM_BYTES: usize = 20;

pub const ORIGIN_BYTES: usize = 8;

// In the two counts: that of items comes first.
pub const ORIGIN_COUNT_AT: usize = 4;

// In an item: its origin comes first. In an origin its length stands where an item has it.
pub const ORIGIN_LENGTH_AT: usize = 4;

pub const NAME_AT: usize = 8;

pub const NAME_LENGTH_AT: usize = 12;

pub const VALUE_AT: usize = 16;
