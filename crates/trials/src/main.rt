// Trials of the planner: accounts that are known by hand, and drawn jobs held against a solver that tries
// every choice.
#![tactic(auto)]

mod accounts;
mod alternating;
mod draw;
mod drawn;
mod exhaustive;
mod heaviest;
mod highest;
mod job;
mod script;
mod tally;

use accounts::{show_accounts, try_equals, try_fronts};
use drawn::{Tallies, try_jobs};
use std::io;

const JOBS: u32 = 2400;

const SEED: u64 = 1;

fn main(rt: HostRuntime) -> io::Result<()> {
    let shown = show_accounts(&rt)?;
    println!(rt; "the jobs above, each also solved by trying every choice: {shown}")?;
    let equals = try_equals(rt.alloc())?;
    println!(rt; "two groups of the same one channel with gap 0, for every channel: {equals}")?;
    let fronts = try_fronts(rt.alloc())?;
    println!(rt;
        "the empty input and the other fronts of the first job, each also read apart: {fronts}"
    )?;
    let tallies = try_jobs(rt.alloc(), SEED, JOBS)?;
    println!(rt; "{JOBS} drawn jobs, each also solved by trying every choice")?;
    let Tallies {
        program,
        steady,
        highest,
        heaviest,
        scripts,
        calls,
    } = tallies;
    println!(rt; "last conflict over fewest first, geometric: {program}")?;
    println!(rt; "fewest first, steady at 1, a base of 40 words: {steady}")?;
    println!(rt; "highest group first, cutoffs 1 and 3 in turn, sittings of 2 moves: {highest}")?;
    println!(rt; "heaviest group first, steady at 2: {heaviest}")?;
    println!(rt; "drawn scripts of calls, a base of 60 words: {scripts}")?;
    println!(rt; "in the scripts: {calls}")?;
    let disagreements = shown
        .disagreements
        .saturating_add(equals.disagreements)
        .saturating_add(fronts.disagreements)
        .saturating_add(tallies.disagreements());
    if disagreements == 0 {
        println!(rt; "all agree")
    } else {
        println!(rt; "{disagreements} disagreements")
    }
}
