// A search that is opened and visited: the visits of a list are made on it one after another.
#![tactic(auto)]

pub mod decided;
pub mod one_of;

ghost use Rattle.std.specs.Prelude.{MatchResult};
ghost use Rattle.visits.specs.Answers.{state_in, Finds, VisitedOnce, Visited, Unvisited};

use branching::{Order, RestartPolicy};
use rules::book::RuleBook;
use rules::refusal::Refusal;
use search::calls::{open, restart, sitting};
use search::held::{OpenSearch, Sat};
use search::regions::Regions;

// A sitting that is asked for, with an order, a policy and an allowance of its own.
#[derive(Drop)]
pub struct Sitting<O, P> {
    pub order: O,
    pub policy: P,
    pub allowance: u32,
}

// What is asked of a search on one visit: a sitting, or a restart, after which the policy moves on.
#[derive(Drop)]
pub enum Visit<O, P> {
    Sitting(Sitting<O, P>),
    Restart(P),
}

impl<O: Order, P: RestartPolicy> Sitting<O, P> {
    // Sits on a search as asked. Where that is refused, the search goes on as it was.
    fn make<B: RuleBook>(
        &mut self,
        search: OpenSearch,
        lists: &[u64],
        book: &B,
        regions: &mut Regions<'_>,
    ) -> Sat
        requires { Finds lists.now regions.old «search» (state_in regions.old «search».at) }
        ensures { VisitedOnce O.Order.meaning P.RestartPolicy.meaning O.Order.held P.RestartPolicy.held (B.RuleBook.meaning book.now) lists.now regions.old regions.new «search» (Visit.Sitting self.old) (Visit.Sitting self.new) result }
    {
        let allowance = self.allowance;
        let order = &mut self.order;
        let policy = &mut self.policy;
        match sitting(search, lists, book, order, policy, allowance, regions) {
            Ok(sat) => sat,
            Err((_, same)) => Sat::Open(same),
        }
    }
}

// Makes one visit on a search. Where it is refused, the search goes on as it was.
fn visit_once<B: RuleBook, O: Order, P: RestartPolicy>(
    search: OpenSearch,
    lists: &[u64],
    book: &B,
    visit: &mut Visit<O, P>,
    regions: &mut Regions<'_>,
) -> Sat
    requires { Finds lists.now regions.old «search» (state_in regions.old «search».at) }
    ensures { VisitedOnce O.Order.meaning P.RestartPolicy.meaning O.Order.held P.RestartPolicy.held (B.RuleBook.meaning book.now) lists.now regions.old regions.new «search» visit.old visit.new result }
{
    match visit {
        Visit::Sitting(asked) => asked.make(search, lists, book, regions),
        Visit::Restart(policy) => {
            let branch = &mut *regions.branch;
            let base = &mut *regions.base;
            match restart(search, lists, policy, branch, base) {
                Ok(next) => Sat::Open(next),
                Err((_, same)) => Sat::Open(same),
            }
        }
    }
}

// Opens a search on lists and book and makes the visits on it one after another, until one settles the search or none is left. A visit that is refused leaves the search as it
// was, and the next is made.
pub fn make_visits<B: RuleBook, O: Order, P: RestartPolicy>(
    lists: &[u64],
    book: &B,
    visits: &mut [Visit<O, P>],
    regions: &mut Regions<'_>,
) -> Result<Sat, Refusal>
    ensures { MatchResult result (Visited O.Order.meaning P.RestartPolicy.meaning O.Order.held P.RestartPolicy.held (B.RuleBook.meaning book.now) lists.now regions.old regions.new visits.old visits.new) (Unvisited (B.RuleBook.meaning book.now) lists.now regions.old regions.new visits.old visits.new) }
{
    let mut search = open(lists, book)?;
    for visit in visits.iter_mut() {
        match visit_once(search, lists, book, visit, regions) {
            Sat::Open(next) => search = next,
            settled => return Ok(settled),
        }
    }
    Ok(Sat::Open(search))
}

#[cfg(test)]
mod tests {
    use super::*;
    use crate::one_of::OneOf;
    use branching::{FewestFirst, Geometric, LastConflict, Steady};
    use propagation::records::{Assignment, RuleEnd};
    use rules::gap::{GapBook, GapEntry};
    use std::test::Fail;

    type AnyOrder = OneOf<FewestFirst, LastConflict<FewestFirst>>;

    type AnyPolicy = OneOf<Geometric, Steady>;

    fn gap(first: u16, second: u16, gap: u8) -> GapEntry {
        GapEntry { first, second, gap }
    }

    fn sit(order: AnyOrder, policy: AnyPolicy, allowance: u32) -> Visit<AnyOrder, AnyPolicy> {
        Visit::Sitting(Sitting {
            order,
            policy,
            allowance,
        })
    }

    fn fewest_first() -> AnyOrder {
        OneOf::First(FewestFirst)
    }

    fn last_conflict() -> AnyOrder {
        OneOf::Second(LastConflict::new(1, FewestFirst))
    }

    fn geometric() -> AnyPolicy {
        OneOf::First(Geometric::new())
    }

    fn steady() -> AnyPolicy {
        OneOf::Second(Steady::new(1000))
    }

    // {0,5}, {1,2}, {1,2}: gap 2 from the first to both others, and 1 between these. Of the seven visits the fourth is refused, since nothing was closed after the restart, and the
    // fifth for its allowance; the sixth finds the plan, and the last is not made.
    #[test]
    fn visits_of_all_kinds_come_to_the_plan(rt: HostRuntime) -> Result<(), Fail> {
        let gaps = [gap(0, 1, 2), gap(0, 2, 2), gap(1, 2, 1)];
        let book = GapBook {
            groups: 3,
            entries: &gaps,
        };
        let mut visits = [
            sit(fewest_first(), geometric(), 1),
            sit(last_conflict(), steady(), 1),
            Visit::Restart(steady()),
            Visit::Restart(geometric()),
            sit(fewest_first(), steady(), 0),
            sit(last_conflict(), geometric(), 10),
            sit(fewest_first(), geometric(), 10),
        ];
        let mut plan = [9u8; 4];
        let mut base = [7u32; 4];
        let mut regions = Regions {
            domains: &mut [0u64; 3],
            marks: &mut [0u32; 256],
            ends: &mut [RuleEnd::default(); 6],
            settled: &mut [Assignment::default(); 3],
            branch: &mut [0u32; 192],
            plan: &mut plan,
            base: &mut base,
        };
        let sat = make_visits(&[33, 6, 6], &book, &mut visits, &mut regions)
            .ok()
            .ok_or("refused")?;
        let counts = sat.counts();
        assert_eq!(rt; (counts.moves, counts.closings, counts.restarts), (4, 1, 1));
        assert_eq!(rt; (sat.branch_len(), sat.base_used()), (1, 2));
        match sat {
            Sat::Plan(_) => {}
            Sat::None(_) => return Err("none".into()),
            Sat::Open(search) => {
                let _ = search.leave();
                return Err("open".into());
            }
        }
        assert_eq!(rt; plan.as_slice(), [5, 1, 2, 9].as_slice());
        assert_eq!(rt; base.as_slice(), [1, 0, 7, 7].as_slice());
        Ok(())
    }
}
