// The regions that are lent to the calls on a search, the sittings in them, and what these leave of an answer.
ghost use Rattle.std.specs.Prelude.{◌≡◌, ◌+◌, IfOk, IsOkUnless, vec_items, vec_len};
ghost use Rattle.search.specs.Sittings.{lent, Answers};
ghost use Rattle.planner.specs.Answers.{Shaped, Roomy, Zeroed, Kept, lent_of, reached, told_by};
ghost use Rattle.planner.specs.declared.error.PlanError.TheVariants.{NoMemory};
ghost use Rattle.search.specs.Ends.{counted};

use crate::answer::{Answer, Verdict};
use crate::error::PlanError;
use crate::store::Store;
use branching::{Order, RestartPolicy};
use propagation::records::{Assignment, RuleEnd};
use rules::book::RuleBook;
use rules::refusal::Refusal;
use search::calls::sitting;
use search::held::{OpenSearch, Sat};
use search::regions::Regions;
use std::alloc::Global;

// All that is lent: what remains, the branch, the plan and the base; and what a call works in and may leave as it likes.
#[derive(Drop)]
pub struct Memory {
    pub domains: Vec<u64>,
    pub branch: Vec<u32>,
    pub plan: Vec<u8>,
    pub base: Vec<u32>,
    pub marks: Vec<u32>,
    pub ends: Vec<RuleEnd>,
    pub settled: Vec<Assignment>,
}

// One sitting in these regions, side by side. It is lent slices: of a vector's part that lies in a struct the caller does not learn
// what it is left as, and of a slice that was lent to this function it does.
fn sit_in<'r, B: RuleBook, O: Order, P: RestartPolicy>(
    search: OpenSearch,
    lists: &[u64],
    book: &B,
    order: &mut O,
    policy: &mut P,
    allowance: u32,
    domains: &'r mut [u64],
    marks: &'r mut [u32],
    ends: &'r mut [RuleEnd],
    settled: &'r mut [Assignment],
    branch: &'r mut [u32],
    plan: &'r mut [u8],
    base: &'r mut [u32],
) -> Result<Sat, (Refusal, OpenSearch)>
    ensures { Answers O.Order.meaning P.RestartPolicy.meaning O.Order.held P.RestartPolicy.held (B.RuleBook.meaning book.now) «search» lists.now allowance (lent domains.old branch.old marks.old ends.old settled.old plan.old base.old order.old policy.old) (lent domains.new branch.new marks.new ends.new settled.new plan.new base.new order.new policy.new) result }
{
    let mut regions = Regions {
        domains,
        marks,
        ends,
        settled,
        branch,
        plan,
        base,
    };
    sitting(search, lists, book, order, policy, allowance, &mut regions)
}

impl Memory {
    // The regions for a loaded job, with a base of so many words.
    pub fn new(heap: Global, store: &Store, base_words: u32) -> Result<Memory, PlanError>
        ensures plan { IfOk result (λ m. vec_len m.plan ≡ vec_len store.now.lists) }
        ensures base { IfOk result (λ m. vec_len m.base ≡ base_words) }
        ensures rest { IfOk result (Roomy (vec_len store.now.lists) (vec_len store.now.gaps + vec_len store.now.tables)) }
        ensures zeros { IfOk result Zeroed }
        ensures memory { IsOkUnless result NoMemory }
    {
        let groups = store.lists.len();
        Ok(Memory {
            domains: vec![in heap; 0u64; groups]?,
            branch: vec![in heap; 0u32; 64 * groups]?,
            plan: vec![in heap; 0u8; groups]?,
            base: vec![in heap; 0u32; base_words as usize]?,
            marks: vec![in heap; 0u32; 256]?,
            ends: vec![in heap; RuleEnd::default(); 2 * store.rules()]?,
            settled: vec![in heap; Assignment::default(); groups]?,
        })
    }

    // One sitting in the regions.
    pub fn sit<B: RuleBook, O: Order, P: RestartPolicy>(
        &mut self,
        search: OpenSearch,
        lists: &[u64],
        book: &B,
        order: &mut O,
        policy: &mut P,
        allowance: u32,
    ) -> Result<Sat, (Refusal, OpenSearch)>
        ensures kept { Kept self.old self.new }
        ensures answers { Answers O.Order.meaning P.RestartPolicy.meaning O.Order.held P.RestartPolicy.held (B.RuleBook.meaning book.now) «search» lists.now allowance (lent_of self.old order.old policy.old) (lent_of self.new order.new policy.new) result }
    {
        sit_in(
            search,
            lists,
            book,
            order,
            policy,
            allowance,
            &mut self.domains,
            &mut self.marks,
            &mut self.ends,
            &mut self.settled,
            &mut self.branch,
            &mut self.plan,
            &mut self.base,
        )
    }

    // The answer that the last sitting came to, with the plan and the base that it left.
    pub fn answer(self, sat: Sat) -> Answer
        ensures verdict { Shaped (vec_len self.plan) result.verdict }
        ensures told { told_by result.verdict ≡ reached self.plan.items sat }
        ensures counts { result.counts ≡ counted sat }
        ensures base { result.base ≡ self.base }
    {
        let Memory { plan, base, .. } = self;
        let counts = sat.counts();
        let verdict = match sat {
            Sat::Plan(_) => Verdict::Plan(plan),
            Sat::None(_) => Verdict::None,
            Sat::Open(search) => {
                let _ = search.leave();
                Verdict::Open
            }
        };
        Answer {
            verdict,
            counts,
            base,
        }
    }
}
