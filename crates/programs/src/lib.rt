// What the programs do: the words of a command line choose options, and the bytes on an input are answered on an output.
#![tactic(auto)]

pub mod account;
pub mod decided;
mod input;
pub mod options;
mod output;
pub mod report;
#[cfg(test)]
mod tests;
