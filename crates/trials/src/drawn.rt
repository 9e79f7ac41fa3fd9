// The drawn jobs, each solved in four ways, by a script of calls, and by trying every choice.
use crate::alternating::Alternating;
use crate::draw::Draw;
use crate::exhaustive::has_plan;
use crate::heaviest::Heaviest;
use crate::highest::HighestFirst;
use crate::job::Job;
use crate::script::{Calls, play};
use crate::tally::Tally;
use branching::{FewestFirst, Steady};
use jobs::book::book;
use planner::answer::Answer;
use planner::error::PlanError;
use planner::memory::Memory;
use planner::solve::{PROGRAM, Settings, plan, solve};
use planner::store::Store;
use propagation::records::{Assignment, RuleEnd};
use std::alloc::{AllocError, Global};

// The most groups and the most rules of a drawn job.
const GROUPS: usize = 7;

const RULES: usize = 50;

const SHORT_BASE: Settings = Settings {
    base_words: 40,
    ..PROGRAM
};

const SHORT_SITTINGS: Settings = Settings {
    sittings: 100_000,
    allowance: 2,
    ..PROGRAM
};

// How often each verdict came in each way, and the calls of all scripts together.
#[derive(Clone, Copy, Default)]
pub struct Tallies {
    pub program: Tally,
    pub steady: Tally,
    pub highest: Tally,
    pub heaviest: Tally,
    pub scripts: Tally,
    pub calls: Calls,
}

// Regions for the largest drawn job, and so longer than most jobs need; a plan has as many bytes as groups.
fn roomy_memory(heap: Global, store: &Store) -> Result<Memory, PlanError> {
    let mut memory = Memory::new(heap, store, 60)?;
    memory.domains = vec![in heap; 0u64; GROUPS]?;
    memory.branch = vec![in heap; 0u32; 64 * GROUPS]?;
    memory.ends = vec![in heap; RuleEnd::default(); 2 * RULES]?;
    memory.settled = vec![in heap; Assignment::default(); GROUPS]?;
    Ok(memory)
}

// Plays a script of calls on the job that the bytes say.
fn play_job(
    heap: Global,
    draw: &mut Draw,
    job: &[u8],
    calls: &mut Calls,
) -> Result<Answer, PlanError> {
    let store = Store::load(heap, job)?;
    let mut memory = roomy_memory(heap, &store)?;
    let book = book(job, store.loaded(), &store.gaps, &store.tables);
    let sat = play(draw, &store.lists, &book, &mut memory, calls)?;
    Ok(memory.answer(sat))
}

impl Tallies {
    pub fn disagreements(&self) -> u32 {
        [
            self.program,
            self.steady,
            self.highest,
            self.heaviest,
            self.scripts,
        ]
        .iter()
        .fold(self.calls.wrong, |sum, tally| {
            sum.saturating_add(tally.disagreements)
        })
    }

    // Solves one job as the program does, with restarts after each closing and a short base, with
    // the trials' own order and policy in sittings of two moves, and with their order by weights; and plays a script of calls on it.
    fn try_job(&mut self, heap: Global, draw: &mut Draw, job: &Job) -> Result<(), AllocError> {
        let solvable = has_plan(heap, job)?;
        let bytes = job.bytes(heap)?;
        let bytes = bytes.as_slice();
        self.program.note(job, solvable, plan(heap, bytes));
        let answer = solve(
            heap,
            bytes,
            &mut FewestFirst,
            &mut Steady::new(1),
            SHORT_BASE,
        );
        self.steady.note(job, solvable, answer);
        let mut policy = Alternating::new(1, 3);
        let answer = solve(heap, bytes, &mut HighestFirst, &mut policy, SHORT_SITTINGS);
        self.highest.note(job, solvable, answer);
        let mut order = Heaviest::new();
        let answer = solve(heap, bytes, &mut order, &mut Steady::new(2), PROGRAM);
        self.heaviest.note(job, solvable, answer);
        let answer = play_job(heap, draw, bytes, &mut self.calls);
        self.scripts.note(job, solvable, answer);
        Ok(())
    }
}

// Draws that many jobs and tries each.
pub fn try_jobs(heap: Global, seed: u64, jobs: u32) -> Result<Tallies, AllocError> {
    let mut draw = Draw::new(seed);
    let mut scripts = Draw::new(!seed);
    let mut tallies = Tallies::default();
    // It repeats so often, and indexes nothing.
    for _job in 0..jobs {
        let job = draw.job(heap)?;
        tallies.try_job(heap, &mut scripts, &job)?;
    }
    Ok(tallies)
}
