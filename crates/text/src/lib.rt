// Jobs as text: one item a line, read into what the writer of jobs takes, and written from the bytes of a job.
#![tactic(auto)]

pub mod draft;
pub mod fault;
pub mod laws;
pub mod line;
pub mod list;
pub mod read;
pub mod span;
#[cfg(test)]
mod tests;
pub mod word;
pub mod write;
