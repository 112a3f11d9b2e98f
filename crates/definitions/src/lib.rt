// List definitions and their items.
#![tactic(auto)]

ghost use Rattle.std.specs.Prelude.{◌≡◌, [], ◌+◌, ◌*◌, ◌≤◌, length};
ghost use Rattle.laws.specs.Refusal.{first_of};
ghost use Rattle.image.specs.Refusals.{refusal_in};
ghost use Rattle.image.specs.Sections.{text_entry_size, definition_size};
ghost use Rattle.definitions.specs.Definitions.{items_before, item_rule_from, definition_rule, definitions_rule};
ghost use Rattle.definitions.specs.Parts.{definition_parts};

use image::refusal::Refusal;
use image::{ImageView, order};

// The refusal of an item, the `place`-th from item `first` on.
fn item_rule(items: &[u8], strings: &[u8], first: usize, place: usize) -> Result<(), Refusal>
    requires { text_entry_size * (first + place) + text_entry_size ≤ length items.now }
    ensures { refusal_in result ≡ item_rule_from (definition_parts [] items.now strings.now) first place }
{
    let item = image::text_entry(items, first + place);
    if !image::good_text(strings, item.offset, item.len) {
        return Err(Refusal::BadDefinition);
    }
    if order::entry_rises(items, strings, first, place) {
        Ok(())
    } else {
        Err(Refusal::BadDefinition)
    }
}

// The first refusal of the items of a definition.
fn items_rule(items: &[u8], strings: &[u8], first: usize, count: usize) -> Result<(), Refusal>
    requires { text_entry_size * (first + count) ≤ length items.now }
    ensures { refusal_in result ≡ first_of count (item_rule_from (definition_parts [] items.now strings.now) first) }
{
    for place in 0..count {
        item_rule(items, strings, first, place)?;
    }
    Ok(())
}

// The refusal of definition `d`. The definitions before it have `used` items.
fn definition_rule(
    definitions: &[u8],
    items: &[u8],
    strings: &[u8],
    d: usize,
    used: usize,
) -> Result<(), Refusal>
    requires { (definition_size * d + definition_size ≤ length definitions.now)
        × (used ≡ items_before (definition_parts definitions.now items.now strings.now) d) }
    ensures { refusal_in result ≡ definition_rule (definition_parts definitions.now items.now strings.now) d }
{
    let definition = image::definition_at(definitions, d);
    if !image::good_text(strings, definition.offset, definition.len) {
        return Err(Refusal::BadText);
    }
    if !order::definition_rises(definitions, strings, d) {
        return Err(Refusal::BadDefinition);
    }
    let first = definition.first as usize;
    let count = definition.count as usize;
    if items.len() / ImageView::TEXT_ENTRY_BYTES < first + count {
        return Err(Refusal::BadRange);
    }
    if first != used {
        return Err(Refusal::BadRange);
    }
    items_rule(items, strings, first, count)
}

// The first refusal of a definition or of its items, or of items that no definition has.
pub fn definitions_rule(definitions: &[u8], items: &[u8], strings: &[u8]) -> Result<(), Refusal>
    ensures { refusal_in result ≡ definitions_rule (definition_parts definitions.now items.now strings.now) }
{
    let count = definitions.len() / ImageView::DEFINITION_BYTES;
    let mut used = 0;
    for d in 0..count {
        definition_rule(definitions, items, strings, d, used)?;
        let definition = image::definition_at(definitions, d);
        used += definition.count as usize;
    }
    if used == items.len() / ImageView::TEXT_ENTRY_BYTES {
        Ok(())
    } else {
        Err(Refusal::BadDefinition)
    }
}
