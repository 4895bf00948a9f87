// Request sheets: text that field engineers type, one request to a line.
#![tactic(auto)]

pub mod fault;
pub mod line;
pub mod lines;
pub mod numeral;
pub mod words;
