// Jobs whose accounts are known by hand, with what the planner makes of them.
ghost use Rattle.std.specs.Prelude.{◌≡◌, [], length, take, IfOk};
ghost use Rattle.trials.specs.Bytes.{job_bytes};

use crate::alternating::Alternating;
use crate::exhaustive::has_plan;
use crate::highest::HighestFirst;
use crate::job::{Gap, Job, ends_early};
use crate::tally::{Fronts, Tally};
use branching::{FewestFirst, Geometric, LastConflict, Steady};
use planner::answer::Answer;
use planner::error::PlanError;
use planner::solve::{PROGRAM, Settings, plan, solve};
use std::alloc::{AllocError, Global};
use std::io;

fn gap(first: u16, second: u16, gap: u8) -> Gap
    ensures { (result.first ≡ first) × (result.second ≡ second) × (result.gap ≡ gap) }
{
    Gap { first, second, gap }
}

// The words of a base before the first nogood of no assignments. Read here apart: what is tested shares no code with what tests it.
fn used_words(base: &[u32]) -> &[u32]
    ensures { result.now ≡ take (length result.now) base.now }
{
    let mut rest = base;
    while let Some((count, words)) = rest.split_first()
        && *count > 0
    {
        rest = &words[words.len().min(*count as usize)..];
    }
    &base[..base.len() - rest.len()]
}

// Prints an account under what the job is, and the base where it was written to.
fn show(rt: &HostRuntime, name: &str, answer: &Result<Answer, PlanError>) -> io::Result<()> {
    println!(rt; "{name}:")?;
    match answer {
        Ok(answer) => {
            println!(rt; "{answer}")?;
            let words = used_words(&answer.base);
            if !words.is_empty() {
                println!(rt; "base words {words:?}")?;
            }
            Ok(())
        }
        Err(error) => println!(rt; "{error}"),
    }
}

// A job without tables, and what trying every choice says of it.
#[derive(Drop)]
struct Known {
    job: Job,
    bytes: Vec<u8>,
    solvable: bool,
}

impl Known {
    fn new(heap: Global, lists: &[u64], gaps: &[Gap]) -> Result<Known, AllocError>
        ensures { IfOk result (λ known. known.bytes.items ≡ job_bytes lists.now gaps.now []) }
    {
        let job = Job {
            lists: lists.to_vec(heap)?,
            gaps: gaps.to_vec(heap)?,
            tables: Vec::new(heap),
        };
        let bytes = job.bytes(heap)?;
        let solvable = has_plan(heap, &job)?;
        Ok(Known {
            job,
            bytes,
            solvable,
        })
    }

    // Prints the account of an answer to the job, and counts the answer.
    fn show(
        &self,
        rt: &HostRuntime,
        tally: &mut Tally,
        name: &str,
        answer: Result<Answer, PlanError>,
    ) -> io::Result<()> {
        show(rt, name, &answer)?;
        tally.note(&self.job, self.solvable, answer);
        Ok(())
    }
}

fn show_program(rt: &HostRuntime, tally: &mut Tally) -> io::Result<()> {
    let heap = rt.alloc();
    let two = Known::new(heap, &[3, 3], &[gap(0, 1, 1)])?;
    let answer = plan(heap, &two.bytes);
    two.show(rt, tally, "two groups {0,1} with gap 1", answer)?;
    let clashing = [gap(0, 1, 1), gap(0, 2, 1), gap(1, 2, 1)];
    let three = Known::new(heap, &[3, 3, 3], &clashing)?;
    let job = three.bytes.as_slice();
    let answer = plan(heap, job);
    three.show(
        rt,
        tally,
        "three groups {0,1}, every two with gap 1",
        answer,
    )?;
    let answer = solve(heap, job, &mut FewestFirst, &mut Geometric::new(), PROGRAM);
    three.show(rt, tally, "the same, fewest first", answer)?;
    let mut order = LastConflict::new(1, FewestFirst);
    let answer = solve(heap, job, &mut order, &mut Geometric::new(), PROGRAM);
    three.show(rt, tally, "the same, last conflict with k 1", answer)?;
    show(rt, "empty input", &plan(heap, &[]))
}

// {0,5}, {1,2}, {1,2}: gap 2 from the first to both others, and 1 between these.
fn show_wrong_start(rt: &HostRuntime, tally: &mut Tally) -> io::Result<()> {
    let heap = rt.alloc();
    let gaps = [gap(0, 1, 2), gap(0, 2, 2), gap(1, 2, 1)];
    let known = Known::new(heap, &[33, 6, 6], &gaps)?;
    let job = known.bytes.as_slice();
    let answer = solve(heap, job, &mut FewestFirst, &mut Geometric::new(), PROGRAM);
    let name = "{0,5}, {1,2}, {1,2} with gaps 2, 2, 1, fewest first, geometric";
    known.show(rt, tally, name, answer)?;
    let answer = solve(heap, job, &mut FewestFirst, &mut Steady::new(1), PROGRAM);
    known.show(rt, tally, "the same, steady at 1", answer)?;
    let one_word = Settings {
        base_words: 1,
        ..PROGRAM
    };
    let answer = solve(heap, job, &mut FewestFirst, &mut Steady::new(1), one_word);
    let name = "the same, steady at 1, a base of one word";
    known.show(rt, tally, name, answer)?;
    let mut policy = Alternating::new(1, 2);
    let answer = solve(heap, job, &mut HighestFirst, &mut policy, PROGRAM);
    let name = "the same, highest group first, cutoffs 1 and 2 in turn";
    known.show(rt, tally, name, answer)
}

// Two groups {0,1} without a rule, and then three clashing ones.
fn show_free_before_clashing(rt: &HostRuntime, tally: &mut Tally) -> io::Result<()> {
    let heap = rt.alloc();
    let clashing = [gap(2, 3, 1), gap(2, 4, 1), gap(3, 4, 1)];
    let known = Known::new(heap, &[3, 3, 3, 3, 3], &clashing)?;
    let job = known.bytes.as_slice();
    let answer = solve(heap, job, &mut FewestFirst, &mut Geometric::new(), PROGRAM);
    let name = "two free groups {0,1}, then three with gap 1 each, fewest first";
    known.show(rt, tally, name, answer)?;
    let mut order = LastConflict::new(1, FewestFirst);
    let answer = solve(heap, job, &mut order, &mut Geometric::new(), PROGRAM);
    known.show(rt, tally, "the same, last conflict with k 1", answer)?;
    let short = Settings {
        sittings: 3,
        allowance: 2,
        ..PROGRAM
    };
    let answer = solve(heap, job, &mut FewestFirst, &mut Geometric::new(), short);
    let name = "the same, fewest first, three sittings of two moves";
    known.show(rt, tally, name, answer)
}

// Prints the accounts, and answers how often each verdict came in them.
pub fn show_accounts(rt: &HostRuntime) -> io::Result<Tally> {
    let mut tally = Tally::default();
    show_program(rt, &mut tally)?;
    show_wrong_start(rt, &mut tally)?;
    show_free_before_clashing(rt, &mut tally)?;
    Ok(tally)
}

// Two groups that have the same one channel, with gap 0: a plan, whichever channel it is.
pub fn try_equals(heap: Global) -> Result<Tally, AllocError> {
    let mut tally = Tally::default();
    for channel in 0..64u8 {
        let list = 1u64 << channel;
        let known = Known::new(heap, &[list, list], &[gap(0, 1, 0)])?;
        tally.note(&known.job, known.solvable, plan(heap, &known.bytes));
    }
    Ok(tally)
}

// Inputs that end too early: the empty one, and every other front of the two groups {0,1} with gap 1. Each is
// refused where the trials read that it ends.
pub fn try_fronts(heap: Global) -> Result<Fronts, AllocError> {
    let known = Known::new(heap, &[3, 3], &[gap(0, 1, 1)])?;
    let mut fronts = Fronts::default();
    for length in 0..known.bytes.len() {
        let front = &known.bytes[..length];
        fronts.note(ends_early(front), plan(heap, front));
    }
    Ok(fronts)
}
