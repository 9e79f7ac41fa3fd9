// What remains of the lists after decisions, rules and recorded nogoods.
#![tactic(auto)]

mod across;
pub mod bench;
pub mod decision;
mod desk;
mod ends;
pub mod filter;
mod heed;
mod index;
mod line;
pub mod links;
mod nogood;
pub mod records;
mod revise;
pub mod ring;
mod shrink;
mod spreads;
mod start;
mod walk;
mod wires;
mod work;
