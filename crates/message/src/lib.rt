// Messages of TileLink's channels A and D (TL-UL and TL-UH), and the address sets that they lie in.
#![tactic(auto)]

pub mod address_set;
pub mod kind;
pub mod operation;
pub mod refusal;
pub mod request;
pub mod response;
#[cfg(test)]
mod tests;
