// Drawn scripts of calls on one search: sittings of few moves, restarts, and calls that are refused, each
// with an order and a policy of its own.
use crate::alternating::Alternating;
use crate::draw::Draw;
use crate::highest::HighestFirst;
use crate::tally::count_one;
use branching::{FewestFirst, Geometric, LastConflict, Order, RestartPolicy, Steady};
use planner::memory::Memory;
use rules::book::RuleBook;
use rules::refusal::Refusal;
use search::calls::{open, restart};
use search::held::{Counts, OpenSearch, Sat};
use std::fmt;

// The most calls of a script.
const CALLS: u32 = 4000;

// The calls of scripts told apart, and what went wrong: a count past its bound, or an answer to a call that
// has to be refused.
#[derive(Clone, Copy, Default)]
pub struct Calls {
    pub sittings: u32,
    pub restarts: u32,
    pub refused: u32,
    pub wrong: u32,
}

// A script in play: what its calls are drawn from and made on, and where they are counted.
#[derive(Drop)]
struct Script<'s, B> {
    draw: &'s mut Draw,
    lists: &'s [u64],
    book: &'s B,
    memory: &'s mut Memory,
    calls: &'s mut Calls,
}

// The most closings of a search on the lists: one less than the product of one more than the channels.
fn most_closings(lists: &[u64]) -> u64 {
    let product = lists.iter().fold(1u64, |product, list| {
        product.saturating_mul(u64::from(list.count_ones()).saturating_add(1))
    });
    product.saturating_sub(1)
}

// Whether the closings and the moves are within their bounds.
fn within(lists: &[u64], counts: Counts) -> bool {
    let groups = lists.len() as u64;
    let closings = u64::from(counts.closings);
    let most = groups
        .saturating_add(3)
        .saturating_mul(closings)
        .saturating_add(groups);
    closings <= most_closings(lists) && u64::from(counts.moves) <= most
}

impl<B: RuleBook> Script<'_, B> {
    // A sitting with this order and this policy.
    fn sit_by<O: Order + Drop, P: RestartPolicy + Drop>(
        &mut self,
        search: OpenSearch,
        allowance: u32,
        mut order: O,
        mut policy: P,
    ) -> Result<Sat, (Refusal, OpenSearch)> {
        self.memory.sit(
            search,
            self.lists,
            self.book,
            &mut order,
            &mut policy,
            allowance,
        )
    }

    // A sitting with one of four pairs of order and policy, each of other types.
    fn sit(&mut self, search: OpenSearch, allowance: u32) -> Result<Sat, (Refusal, OpenSearch)> {
        match self.draw.below(4) {
            0 => self.sit_by(search, allowance, FewestFirst, Steady::new(2)),
            1 => self.sit_by(search, allowance, HighestFirst, Alternating::new(2, 1)),
            2 => self.sit_by(
                search,
                allowance,
                LastConflict::new(2, FewestFirst),
                Geometric::new(),
            ),
            _ => self.sit_by(search, allowance, HighestFirst, Steady::new(2)),
        }
    }

    // A sitting of 1 to 3 moves.
    fn sit_shortly(&mut self, search: OpenSearch) -> Result<Sat, (Refusal, OpenSearch)> {
        let allowance = u32::from(self.draw.below(3)) + 1;
        count_one(&mut self.calls.sittings);
        self.sit(search, allowance)
    }

    // A sitting of no moves, or of too many, which has to be refused.
    fn sit_wrongly(&mut self, search: OpenSearch) -> Result<Sat, (Refusal, OpenSearch)> {
        let allowance = if self.draw.below(2) == 0 {
            0
        } else {
            1_000_001
        };
        let sat = self.sit(search, allowance)?;
        count_one(&mut self.calls.wrong);
        Ok(sat)
    }

    // A restart, which is refused where nothing was closed or the base has no space.
    fn restart(&mut self, search: OpenSearch) -> Result<Sat, (Refusal, OpenSearch)> {
        let memory = &mut *self.memory;
        let next = restart(
            search,
            self.lists,
            &mut Geometric::new(),
            &memory.branch,
            &mut memory.base,
        )?;
        count_one(&mut self.calls.restarts);
        Ok(Sat::Open(next))
    }

    // One call of the script. Where it is refused, the search goes on as it was. (A match: which of three methods is called depends on a number.)
    fn call(&mut self, search: OpenSearch) -> Sat {
        let answer = match self.draw.below(8) {
            0 | 1 => self.restart(search),
            2 => self.sit_wrongly(search),
            _ => self.sit_shortly(search),
        };
        let sat = match answer {
            Ok(sat) => sat,
            Err((_, search)) => {
                count_one(&mut self.calls.refused);
                Sat::Open(search)
            }
        };
        if !within(self.lists, sat.counts()) {
            count_one(&mut self.calls.wrong);
        }
        sat
    }
}

// Opens a search and plays calls on it until it is settled, or as many as a script has.
pub fn play<B: RuleBook>(
    draw: &mut Draw,
    lists: &[u64],
    book: &B,
    memory: &mut Memory,
    calls: &mut Calls,
) -> Result<Sat, Refusal> {
    let mut search = open(lists, book)?;
    let mut script = Script {
        draw,
        lists,
        book,
        memory,
        calls,
    };
    // It repeats so often, and indexes nothing.
    for _call in 0..CALLS {
        match script.call(search) {
            Sat::Open(next) => search = next,
            settled => return Ok(settled),
        }
    }
    Ok(Sat::Open(search))
}

impl fmt::Display for Calls {
    fn fmt<W: fmt::Write>(&self, f: &mut fmt::Formatter<W>) -> fmt::Result {
        let Calls {
            sittings,
            restarts,
            refused,
            wrong,
        } = *self;
        write!(
            f,
            "{sittings} sittings, {restarts} restarts, {refused} refused calls, {wrong} past a bound or not refused"
        )
    }
}
