// The search for a plan of a job: its memory, its sittings and its answer.
ghost use Rattle.std.specs.Prelude.{◌≡◌, ◌<◌, ◌≤◌, ◌+◌, ◌*◌, None, length, vec_len, IsOkAnd, Err, MatchResult, OnErr};
ghost use Rattle.rules.specs.declared.refusal.Refusal.TheVariants.{NoPlace};
ghost use Rattle.search.specs.Calls.{Vets};
ghost use Rattle.planner.specs.declared.error.PlanError.TheVariants.{Refused};
ghost use Rattle.planner.specs.Answers.{Kept, over_limits, refusal_of, Ready, SatOn, Searched, Answered, Unanswered, RefusedAsDue, RefusedAsLoaded, AnsweredByProgram};
ghost use Rattle.planner.specs.Stores.{Unstored};

use crate::answer::Answer;
use crate::error::PlanError;
use crate::memory::Memory;
use crate::store::Store;
use branching::{FewestFirst, Geometric, LastConflict, Order, RestartPolicy};
use jobs::book::book;
use rules::book::RuleBook;
use rules::refusal::Refusal;
use search::calls::open;
use search::held::{OpenSearch, Sat};
use std::alloc::Global;

// How long is searched, and with how many words to record nogoods in.
#[derive(Clone, Copy)]
pub struct Settings {
    pub base_words: u32,
    pub sittings: u32,
    pub allowance: u32,
}

impl Settings {
    // Goes on where the settings are within the limits of a sitting, even if all sittings are made; or says which limit they are over, the first of those that a sitting checks.
    fn check(self) -> Result<(), Refusal>
        ensures { Vets result (refusal_of self) }
    {
        if self.base_words > 65_536 {
            return Err(Refusal::RegionTooShort);
        }
        if !(1..=1_000_000).contains(&self.allowance) {
            return Err(Refusal::Allowance);
        }
        let moves = u64::from(self.sittings) * u64::from(self.allowance);
        if moves > 100_000_000 {
            return Err(Refusal::TooManyMoves);
        }
        Ok(())
    }
}

// What the program searches with, and the longest job that it takes.
pub const PROGRAM: Settings = Settings {
    base_words: 4096,
    sittings: 100,
    allowance: 10_000,
};

pub const LONGEST_JOB: usize = 65_536;

// The sittings on an open search, one after another, until one settles it or none is left. None is refused: all that a sitting is refused for was looked at before.
fn sit_on<B: RuleBook, O: Order, P: RestartPolicy>(
    mut search: OpenSearch,
    lists: &[u64],
    book: &B,
    order: &mut O,
    policy: &mut P,
    settings: Settings,
    memory: &mut Memory,
) -> Result<Sat, PlanError>
    requires ready { Ready (B.RuleBook.meaning book.now) lists.now settings.allowance «search» memory.old }
    requires within { over_limits (vec_len memory.old.base) settings.allowance («search».at.counts.moves + settings.sittings * settings.allowance) ≡ None }
    ensures kept { Kept memory.old memory.new }
    ensures sat { IsOkAnd result (SatOn O.Order.meaning P.RestartPolicy.meaning (B.RuleBook.meaning book.now) lists.now settings «search» memory.old memory.new (O.Order.held order.old) (O.Order.held order.new) (P.RestartPolicy.held policy.old) (P.RestartPolicy.held policy.new)) }
{
    // It repeats so often, and indexes nothing.
    for _sitting in 0..settings.sittings {
        match memory.sit(search, lists, book, order, policy, settings.allowance)? {
            Sat::Open(next) => search = next,
            settled => return Ok(settled),
        }
    }
    Ok(Sat::Open(search))
}

// Loads the job, looks at the settings and then searches for a plan. Hands out the regions as the last sitting left them. All memory is taken before the first sitting, so an error
// comes before it.
pub(crate) fn searched<O: Order, P: RestartPolicy>(
    heap: Global,
    job: &[u8],
    order: &mut O,
    policy: &mut P,
    settings: Settings,
) -> Result<(Memory, Sat), PlanError>
    ensures answers { MatchResult result (λ x. Searched O.meaning P.meaning job.now settings (O.held order.old) (O.held order.new) (P.held policy.old) (P.held policy.new) x.0 x.1) (Unanswered job.now settings) }
    ensures kept { OnErr result ((order.new ≡ order.old) × (policy.new ≡ policy.old)) }
{
    let store = Store::load(heap, job)?;
    settings.check()?;
    let mut memory = Memory::new(heap, &store, settings.base_words)?;
    let lists = store.lists.as_slice();
    let book = book(job, store.loaded(), &store.gaps, &store.tables);
    let search = open(lists, &book)?;
    let sat = sit_on(search, lists, &book, order, policy, settings, &mut memory)?;
    Ok((memory, sat))
}

// The answer to a job, or why there is none: the job's first fault, or else the refusal that the settings are due. Without an answer order and policy stay as they were.
pub fn solve<O: Order, P: RestartPolicy>(
    heap: Global,
    job: &[u8],
    order: &mut O,
    policy: &mut P,
    settings: Settings,
) -> Result<Answer, PlanError>
    ensures answers { MatchResult result (Answered O.meaning P.meaning job.now settings (O.held order.old) (O.held order.new) (P.held policy.old) (P.held policy.new)) (Unanswered job.now settings) }
    ensures refused { RefusedAsDue job.now settings result }
    ensures kept { OnErr result ((order.new ≡ order.old) × (policy.new ≡ policy.old)) }
{
    let (memory, sat) = searched(heap, job, order, policy, settings)?;
    Ok(memory.answer(sat))
}

// What the program answers to the bytes on its input.
pub fn plan(heap: Global, job: &[u8]) -> Result<Answer, PlanError>
    ensures long { 65536 < length job.now → result ≡ Err (Refused (NoPlace 65536)) }
    ensures short { length job.now ≤ 65536 → MatchResult result (AnsweredByProgram job.now) (Unstored job.now) }
    ensures refused { length job.now ≤ 65536 → RefusedAsLoaded job.now result }
{
    if job.len() > LONGEST_JOB {
        return Err(PlanError::Refused(Refusal::NoPlace(LONGEST_JOB)));
    }
    let mut order = LastConflict::new(1, FewestFirst);
    let mut policy = Geometric::new();
    solve(heap, job, &mut order, &mut policy, PROGRAM)
}
