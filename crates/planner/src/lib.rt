// One call from the bytes of a job to an answer, and the account of it as text.
#![tactic(auto)]

pub mod answer;
pub mod decided;
pub mod error;
pub mod memory;
pub mod report;
pub mod solve;
pub mod store;
