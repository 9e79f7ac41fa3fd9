// Rule books: what a book stands for, three makes of them, and the check of a plan.
#![tactic(auto)]

pub mod bits;
pub mod book;
pub mod channels;
pub mod check;
pub mod gap;
pub mod joined;
pub mod laws;
pub mod refusal;
pub mod table;
