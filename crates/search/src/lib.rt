// A search that is opened, sat on and settled, with its moves on lent regions.
#![tactic(auto)]

mod befores;
pub mod calls;
pub mod held;
mod moves;
pub mod recording;
pub mod regions;
mod turns;
mod vetting;
pub mod words;
