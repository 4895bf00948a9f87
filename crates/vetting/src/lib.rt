// What there is to say of a request sheet before a bring-up: which requests are legal, and where they lie.
#![tactic(auto)]

pub mod address_map;
pub mod finding;
pub mod report;
