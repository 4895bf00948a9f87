// Beats: how messages go over a bus of a few bytes, cut into beats and joined again.
#![tactic(auto)]

pub mod begun;
pub mod burst;
pub mod channel;
pub mod cut;
pub mod header;
mod judge;
pub mod lanes;
pub mod request;
pub mod response;
#[cfg(test)]
mod tests;
pub mod width;
