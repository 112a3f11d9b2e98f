// The sections of an image that hold list definitions, their items and the payload of lists.
#![tactic(auto)]

pub mod definition_sections; // definition_sections.rt: sections 3 and 4
pub mod payload; // payload.rt: section 6
