// The calls on a search: open, sitting and restart.
ghost use Rattle.std.specs.Prelude.{◌≡◌, ℕ, ◌^◌, ◌<◌, ◌≤◌, None, Ok, length, drop, MatchResult, slice_index, slice_index_or};
ghost use Rattle.std.specs.Int.Count.{count_trailing_zeros};
ghost use Rattle.search.specs.Regions.{SameRegions};
ghost use Rattle.laws.specs.Requests.{sitting_refusal};
ghost use Rattle.search.specs.Sittings.{lent_in, request, Opened, Unopened, Answers};
ghost use Rattle.search.specs.Restarts.{RestartAnswers};

use crate::befores::Befores;
use crate::held::{OpenSearch, Progress, Sat, SettledSearch};
use crate::moves::restart as restart_move;
use crate::regions::Regions;
use crate::turns::{Step, link_all, turn};
use crate::vetting::{vet_open, vet_restart, vet_sitting};
use branching::{Order, RestartPolicy};
use propagation::links::Links;
use rules::book::RuleBook;
use rules::refusal::Refusal;

// Opens a search on lists and book, with an empty branch and an empty base.
pub fn open<B: RuleBook>(lists: &[u64], book: &B) -> Result<OpenSearch, Refusal>
    ensures { MatchResult result (Opened (B.meaning book.now) lists.now) (Unopened (B.meaning book.now) lists.now) }
{
    vet_open(lists, book)?;
    Ok(OpenSearch {
        groups: lists.len() as u16,
        at: Progress::default(),
    })
}

// Writes the one channel that each group keeps.
fn write_plan(domains: &[u64], plan: &mut [u8])
    requires room { length domains.now ≤ length plan.old }
    ensures written { (g : ℕ) → g < length domains.now → slice_index_or plan.new g 64 ≡ count_trailing_zeros 64 (slice_index domains.now g) }
    ensures fits { (g : ℕ) → g < length domains.now → slice_index domains.now g < 2 ^ 64 }
    ensures beyond { drop (length domains.now) plan.new ≡ drop (length domains.now) plan.old }
{
    // By index: what `iter_mut` leaves of a slice is known by its length alone.
    for (group, domain) in domains.iter().enumerate() {
        plan[group] = domain.trailing_zeros() as u8;
    }
}

// The moves of a sitting that is not refused. The links and the families that it keeps lie in its own arrays, which are cleared whenever it is
// entered: so a refusal comes before it.
fn sit<B: RuleBook, O: Order, P: RestartPolicy>(
    search: OpenSearch,
    lists: &[u64],
    book: &B,
    order: &mut O,
    policy: &mut P,
    allowance: u32,
    regions: &mut Regions<'_>,
) -> Sat
    requires accepted { sitting_refusal (request «search» lists.now (B.RuleBook.meaning book.now) allowance (lent_in regions.old order.old policy.old)) ≡ None }
    ensures answers { Answers O.Order.meaning P.RestartPolicy.meaning O.Order.held P.RestartPolicy.held (B.RuleBook.meaning book.now) «search» lists.now allowance (lent_in regions.old order.old policy.old) (lent_in regions.new order.new policy.new) (Ok result) }
    ensures same { SameRegions regions.old regions.new }
{
    let OpenSearch { groups, mut at } = search;
    let base = &mut *regions.base;
    let mut links = Links::blank();
    link_all(&mut links, book, &at, base);
    let mut left = allowance;
    let mut befores = Befores::new();
    // A loop: its ends are answers of the turn.
    'moves: loop {
        match turn(
            lists,
            book,
            order,
            policy,
            left,
            &mut at,
            &mut links,
            &mut befores,
            regions,
        ) {
            Step::None => return Sat::None(SettledSearch { at }),
            Step::Plan => {
                let domains = &mut *regions.domains;
                let plan = &mut *regions.plan;
                let (remain, _) = domains.split_at(lists.len());
                write_plan(remain, plan);
                return Sat::Plan(SettledSearch { at });
            }
            Step::Spent => return Sat::Open(OpenSearch { groups, at }),
            Step::Made(_) => left -= 1,
        }
    }
}

// Makes moves on a search until it ends or the allowance is used up. A refusal comes with the search as it was, as a pair that a caller
// takes apart at once. Lists and book, order and policy are parameters of their own: a restart takes lists without a book, and a
// policy without an order.
pub fn sitting<B: RuleBook, O: Order, P: RestartPolicy>(
    search: OpenSearch,
    lists: &[u64],
    book: &B,
    order: &mut O,
    policy: &mut P,
    allowance: u32,
    regions: &mut Regions<'_>,
) -> Result<Sat, (Refusal, OpenSearch)>
    ensures answers { Answers O.Order.meaning P.RestartPolicy.meaning O.Order.held P.RestartPolicy.held (B.RuleBook.meaning book.now) «search» lists.now allowance (lent_in regions.old order.old policy.old) (lent_in regions.new order.new policy.new) result }
    ensures same { SameRegions regions.old regions.new }
{
    if let Err(refusal) = vet_sitting(&search, lists, book, allowance, regions) {
        return Err((refusal, search));
    }
    Ok(sit(search, lists, book, order, policy, allowance, regions))
}

// Makes the restart move on a search, at any cutoff.
pub fn restart<P: RestartPolicy>(
    search: OpenSearch,
    lists: &[u64],
    policy: &mut P,
    branch: &[u32],
    base: &mut [u32],
) -> Result<OpenSearch, (Refusal, OpenSearch)>
    ensures { RestartAnswers P.meaning P.held «search» lists.now branch.now base.old base.new policy.old policy.new result }
{
    if let Err(refusal) = vet_restart(&search, lists, branch, base) {
        return Err((refusal, search));
    }
    let OpenSearch { groups, mut at } = search;
    restart_move(policy, &mut at, branch, base);
    Ok(OpenSearch { groups, at })
}
