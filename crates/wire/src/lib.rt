// Whole messages over the bus: the beats of a message joined to it.
#![tactic(auto)]

pub mod channel;
pub mod join;
pub mod joined;
pub mod messages;
pub mod request;
pub mod response;
#[cfg(test)]
mod tests;
