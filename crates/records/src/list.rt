// A list's payload: how many items and origins it has, the items (optional origin, name, value), the origins.
ghost use Rattle.std.specs.Prelude.{◌≡◌, ◌+◌, ◌*◌, ◌≤◌, length};
ghost use Rattle.laws.specs.Refusal.{first_of};
ghost use Rattle.image.specs.Refusals.{refusal_in};
ghost use Rattle.image.specs.Sections.{list_head_size, list_item_size, list_origin_size};
ghost use Rattle.records.specs.Records.{payload_rule, list_item_rule, list_origin_rule, list_items};
ghost use Rattle.records.specs.Shown.{bytes_only};

use image::payload::{
    HEAD_BYTES, ITEM_BYTES, NAME_AT, NAME_LENGTH_AT, ORIGIN_BYTES, ORIGIN_COUNT_AT,
    ORIGIN_LENGTH_AT,
};
use image::refusal::Refusal;

// Item `j` of the payload that starts at `at`.
fn item(payload: &[u8], strings: &[u8], at: usize, j: usize) -> Result<(), Refusal>
    requires { at + list_head_size + j * list_item_size + list_item_size ≤ length payload.now }
    ensures { refusal_in result ≡ list_item_rule (bytes_only payload.now strings.now) at j }
{
    let first = at + HEAD_BYTES + j * ITEM_BYTES;
    let origin = words::word(payload, first);
    let origin_len = words::word(payload, first + ORIGIN_LENGTH_AT);
    let name = words::word(payload, first + NAME_AT);
    let name_len = words::word(payload, first + NAME_LENGTH_AT);
    if !image::good_optional(strings, origin, origin_len, false) {
        return Err(Refusal::BadText);
    }
    if !image::good_text(strings, name, name_len) {
        return Err(Refusal::BadText);
    }
    Ok(())
}

// The first refusal of an item.
fn items_rule(payload: &[u8], strings: &[u8], at: usize, items: usize) -> Result<(), Refusal>
    requires { at + list_head_size + items * list_item_size ≤ length payload.now }
    ensures { refusal_in result ≡ first_of items (list_item_rule (bytes_only payload.now strings.now) at) }
{
    for j in 0..items {
        item(payload, strings, at, j)?;
    }
    Ok(())
}

// Origin `j`, where the payload has so many items before its origins.
fn origin(payload: &[u8], strings: &[u8], at: usize, items: usize, j: usize) -> Result<(), Refusal>
    requires { (at + list_head_size + items * list_item_size + j * list_origin_size + list_origin_size ≤ length payload.now)
        × (items ≡ list_items (bytes_only payload.now strings.now) at) }
    ensures { refusal_in result ≡ list_origin_rule (bytes_only payload.now strings.now) at j }
{
    let first = at + HEAD_BYTES + items * ITEM_BYTES + j * ORIGIN_BYTES;
    let text = words::word(payload, first);
    let len = words::word(payload, first + ORIGIN_LENGTH_AT);
    if !image::good_text(strings, text, len) {
        return Err(Refusal::BadText);
    }
    Ok(())
}

// The first refusal of an origin.
fn origins_rule(
    payload: &[u8],
    strings: &[u8],
    at: usize,
    items: usize,
    origins: usize,
) -> Result<(), Refusal>
    requires { (at + list_head_size + items * list_item_size + origins * list_origin_size ≤ length payload.now)
        × (items ≡ list_items (bytes_only payload.now strings.now) at) }
    ensures { refusal_in result ≡ first_of origins (list_origin_rule (bytes_only payload.now strings.now) at) }
{
    for j in 0..origins {
        origin(payload, strings, at, items, j)?;
    }
    Ok(())
}

// The payload of a list, whose length is exact.
pub fn payload_rule(payload: &[u8], strings: &[u8], start: u32, len: u32) -> Result<(), Refusal>
    ensures { refusal_in result ≡ payload_rule (bytes_only payload.now strings.now) start len }
{
    let at = start as usize;
    let size = len as usize;
    if payload.len() < at + size {
        return Err(Refusal::BadRange);
    }
    if size < HEAD_BYTES {
        return Err(Refusal::BadRange);
    }
    let items = words::word(payload, at) as usize;
    let origins = words::word(payload, at + ORIGIN_COUNT_AT) as usize;
    if size != HEAD_BYTES + items * ITEM_BYTES + origins * ORIGIN_BYTES {
        return Err(Refusal::BadRange);
    }
    items_rule(payload, strings, at, items)?;
    origins_rule(payload, strings, at, items, origins)
}
