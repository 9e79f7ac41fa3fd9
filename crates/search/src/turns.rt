// One turn of a sitting: what remains, and then an end, a stop, or the first move that applies.
ghost use Rattle.std.specs.Prelude.{◌≡◌, ℕ, ◌+◌, ◌*◌, ◌/◌, ◌<◌, ◌≤◌, true, false, List, [], None, length, take, drop, OnOk, OnErr, slice_index};
ghost use Rattle.rules.specs.Meanings.{Meaning};
ghost use Rattle.branching.specs.Channels.{Open};
ghost use Rattle.std.specs.List.{AllByRecursion};
ghost use Rattle.model.specs.Words.{branch_of, base_of, recorded};
ghost use Rattle.model.specs.Moves.{nogoods};
ghost use Rattle.propagation.specs.Bases.{Grouped};
ghost use Rattle.propagation.specs.Chains.{link};
ghost use Rattle.propagation.specs.Indexed.{Knows};
ghost use Rattle.propagation.specs.Links.{Linked};
ghost use Rattle.propagation.specs.Filtered.{Lives, Dies};
ghost use Rattle.propagation.specs.Benches.{Roomy, Beyond};
ghost use Rattle.search.specs.Counts.{Counted};
ghost use Rattle.search.specs.Regions.{SameRegions};
ghost use Rattle.search.specs.Families.{Keeps, Remembers};
ghost use Rattle.search.specs.Turns.{state_of, Fit, DueAt, DeadTurn, AliveTurn, KeptWords, Fresh, Turned};

use crate::befores::Befores;
use crate::held::Progress;
use crate::moves::{close, decide, restart, some_wide};
use crate::regions::Regions;
use crate::words::{has_space, last_taken};
use branching::{Order, RestartPolicy};
use propagation::bench::{Bench, Dead};
use propagation::decision::propagate_decision;
use propagation::filter::propagate;
use propagation::links::Links;
use propagation::records::{Assignment, RuleEnd};
use rules::book::RuleBook;

// The moves of a search.
#[derive(Clone, Copy)]
pub(crate) enum Move {
    Close,
    Restart,
    Decide,
}

// What a turn came to: an end, a stop, or a move.
#[derive(Clone, Copy)]
pub(crate) enum Step {
    None,
    Plan,
    Spent,
    Made(Move),
}

// A turn in a dead state, with `left` moves to go.
fn turn_dead<O: Order>(
    order: &mut O,
    left: u32,
    at: &mut Progress,
    domains: &mut [u64],
    branch: &mut [u32],
    befores: &mut Befores,
) -> Step
    requires few { length domains.old ≤ 200 }
    requires grouped { (i : ℕ) → i < at.old.branch_len → slice_index branch.old i < 65536 → slice_index branch.old i / 64 < 200 }
    requires unready { befores.old.ready ≡ false }
    requires within { at.old.branch_len ≤ length branch.old }
    requires short { at.old.branch_len ≤ 12800 }
    requires counted { Counted left at.old }
    ensures turn { (base : List ℕ) → DeadTurn O.meaning left (O.held order.old) (O.held order.new) (state_of at.old branch.old base) (state_of at.new branch.new base) result }
    ensures used { at.new.base_used ≡ at.old.base_used }
    ensures shorter { at.new.branch_len ≤ at.old.branch_len }
    ensures past { drop at.old.branch_len branch.new ≡ drop at.old.branch_len branch.old }
    ensures remembers { (lists : List ℕ) (book : Meaning) (base ds : List ℕ) → length lists ≡ length domains.old → take (length lists) ds ≡ domains.new → Keeps lists book at.old branch.old base befores.old → Remembers lists book at.new branch.new base ds befores.new }
{
    let Some(last) = last_taken(&branch[..at.branch_len as usize]) else {
        return Step::None;
    };
    if left == 0 {
        return Step::Spent;
    }
    let group = close(at, branch, last);
    order.told(group);
    befores.back(group, last as u16, domains);
    Step::Made(Move::Close)
}

// Whether the cutoff is reached and the base has the space for a restart.
fn is_due<P: RestartPolicy>(policy: &P, at: &Progress, branch: &[u32], base: &[u32]) -> bool
    requires within { at.now.branch_len ≤ length branch.now }
    requires short { at.now.branch_len ≤ 12800 }
    requires used { at.now.base_used ≤ length base.now }
    requires words { take at.now.base_used base.now ≡ recorded (base_of (take at.now.base_used base.now)) }
    ensures yes { result ≡ true → DueAt P.meaning (P.held policy.now) (length base.now) (state_of at.now branch.now base.now) }
    ensures no { result ≡ false → DueAt P.meaning (P.held policy.now) (length base.now) (state_of at.now branch.now base.now) → ⊥ }
{
    policy.cutoff() <= at.since && has_space(at, branch, base)
}

// A turn where every group keeps a channel. Branch and base are lent apart, since `is_due` only reads them.
fn turn_alive<O: Order, P: RestartPolicy>(
    order: &mut O,
    policy: &mut P,
    left: u32,
    at: &mut Progress,
    domains: &[u64],
    branch: &mut [u32],
    base: &mut [u32],
    links: &mut Links,
    befores: &mut Befores,
) -> Step
    requires few { length domains.now ≤ 200 }
    requires unready { befores.old.ready ≡ false }
    requires within { at.old.branch_len ≤ 64 * length domains.now }
    requires room { 64 * length domains.now ≤ length branch.old }
    requires spare { ((g : ℕ) × Open domains.now g) → at.old.branch_len < 64 * length domains.now }
    requires used { at.old.base_used ≤ length base.old }
    requires short { length base.old ≤ 65536 }
    requires words { take at.old.base_used base.old ≡ recorded (base_of (take at.old.base_used base.old)) }
    requires small { AllByRecursion (Grouped 200) (nogoods (state_of at.old branch.old base.old)) }
    requires known { Knows (take at.old.base_used base.old) links.old.index }
    requires counted { Counted left at.old }
    ensures turn { AliveTurn O.Order.meaning P.RestartPolicy.meaning (length base.old) left domains.now (O.Order.held order.old) (O.Order.held order.new) (P.RestartPolicy.held policy.old) (P.RestartPolicy.held policy.new) (state_of at.old branch.old base.old) (state_of at.new branch.new base.new) result }
    ensures within { at.new.branch_len ≤ 64 * length domains.now }
    ensures used { at.new.base_used ≤ length base.new }
    ensures words { take at.new.base_used base.new ≡ recorded (base_of (take at.new.base_used base.new)) }
    ensures kept { KeptWords (length domains.now) at.old.base_used at.new.base_used branch.old branch.new base.old base.new }
    ensures known { Knows (take at.new.base_used base.new) links.new.index }
    ensures wires { links.new.wires ≡ links.old.wires }
    ensures spreads { links.new.spreads ≡ links.old.spreads }
    ensures remembers { (lists : List ℕ) (book : Meaning) (ds : List ℕ) → length lists ≡ length domains.now → take (length lists) ds ≡ domains.now → Lives lists book (base_of (take at.old.base_used base.old)) (branch_of branch.old at.old.branch_len) domains.now → Keeps lists book at.old branch.old base.old befores.old → Remembers lists book at.new branch.new base.new ds befores.new }
{
    if !some_wide(domains) {
        return Step::Plan;
    }
    if left == 0 {
        return Step::Spent;
    }
    if is_due(policy, at, branch, base) {
        let used = at.base_used as usize;
        restart(policy, at, branch, base);
        links.add(&base[..at.base_used as usize], used);
        befores.clear();
        return Step::Made(Move::Restart);
    }
    let place = at.branch_len as u16;
    let group = decide(order, at, domains, branch);
    befores.keep(group, place, domains);
    Step::Made(Move::Decide)
}

// The chains and the spreads of the book, and the index of the nogoods that are recorded, go into blank links, which the caller has in their place.
pub(crate) fn link_all<B: RuleBook>(links: &mut Links, book: &B, at: &Progress, base: &[u32])
    requires wires { (p : ℕ) → link links.old.wires p ≡ None }
    requires spreads { (g : ℕ) → slice_index links.old.spreads g ≡ 0 }
    requires known { Knows [] links.old.index }
    requires groups { (B.meaning book.now).groups ≤ 200 }
    requires rules { (B.meaning book.now).count ≤ 4096 }
    requires used { at.now.base_used ≤ length base.now }
    requires short { length base.now ≤ 65536 }
    requires words { take at.now.base_used base.now ≡ recorded (base_of (take at.now.base_used base.now)) }
    requires small { AllByRecursion (Grouped 200) (base_of (take at.now.base_used base.now)) }
    ensures { Linked (B.meaning book.now) (take at.now.base_used base.now) links.new }
{
    links.follow(book);
    links.add(&base[..at.base_used as usize], 0);
}

// What remains in the state that the numbers and the words stand for, unless it is dead; where that is at hand, from what remained before the newest decision.
// It takes the four regions one by one: with the bench made in `turn` the proof does not close.
fn refresh<B: RuleBook>(
    ready: bool,
    lists: &[u64],
    book: &B,
    at: &Progress,
    branch: &[u32],
    base: &[u32],
    links: &Links,
    domains: &mut [u64],
    marks: &mut [u32],
    ends: &mut [RuleEnd],
    settled: &mut [Assignment],
) -> Result<(), Dead>
    requires fit { Fit lists.now at.now branch.now base.now }
    requires groups { (B.meaning book.now).groups ≡ length lists.now }
    requires rules { (B.meaning book.now).count ≤ 4096 }
    requires roomy { Roomy (length lists.now) (B.meaning book.now).count (length domains.old) (length marks.old) (length ends.old) (length settled.old) }
    requires linked { Linked (B.meaning book.now) (take at.now.base_used base.now) links.now }
    requires fresh { ready ≡ true → Fresh lists.now (B.meaning book.now) at.now branch.now base.now domains.old }
    ensures dead { OnErr result (Dies lists.now (B.meaning book.now) (base_of (take at.now.base_used base.now)) (branch_of branch.now at.now.branch_len)) }
    ensures lives { OnOk result (Lives lists.now (B.meaning book.now) (base_of (take at.now.base_used base.now)) (branch_of branch.now at.now.branch_len) (take (length lists.now) domains.new)) }
    ensures beyond { Beyond (length lists.now) (B.meaning book.now).count domains.old domains.new marks.old marks.new ends.old ends.new settled.old settled.new }
{
    let branch = &branch[..at.branch_len as usize];
    let base = &base[..at.base_used as usize];
    let mut bench = Bench {
        domains,
        marks,
        ends,
        settled,
    };
    // Two calls with the same arguments, of which a closure would say no more.
    if ready {
        propagate_decision(lists, book, branch, base, links, &mut bench)
    } else {
        propagate(lists, book, branch, base, links, &mut bench)
    }
}

// One turn, with `left` moves to go. Lists and book, order and policy come apart, as in `sitting`.
pub(crate) fn turn<B: RuleBook, O: Order, P: RestartPolicy>(
    lists: &[u64],
    book: &B,
    order: &mut O,
    policy: &mut P,
    left: u32,
    at: &mut Progress,
    links: &mut Links,
    befores: &mut Befores,
    regions: &mut Regions<'_>,
) -> Step
    requires fit { Fit lists.now at.old regions.old.branch.now regions.old.base.now }
    requires counted { Counted left at.old }
    requires groups { (B.RuleBook.meaning book.now).groups ≡ length lists.now }
    requires rules { (B.RuleBook.meaning book.now).count ≤ 4096 }
    requires roomy { Roomy (length lists.now) (B.RuleBook.meaning book.now).count (length regions.old.domains.now) (length regions.old.marks.now) (length regions.old.ends.now) (length regions.old.settled.now) }
    requires linked { Linked (B.RuleBook.meaning book.now) (take at.old.base_used regions.old.base.now) links.old }
    requires remembers { Remembers lists.now (B.RuleBook.meaning book.now) at.old regions.old.branch.now regions.old.base.now regions.old.domains.now befores.old }
    ensures same { SameRegions regions.old regions.new }
    ensures turned { Turned lists.now (B.RuleBook.meaning book.now) O.Order.meaning P.RestartPolicy.meaning (length regions.old.base.now) left (take (length lists.now) regions.new.domains.now) (O.Order.held order.old) (O.Order.held order.new) (P.RestartPolicy.held policy.old) (P.RestartPolicy.held policy.new) (state_of at.old regions.old.branch.now regions.old.base.now) (state_of at.new regions.new.branch.now regions.new.base.now) result }
    ensures fit { Fit lists.now at.new regions.new.branch.now regions.new.base.now }
    ensures linked { Linked (B.RuleBook.meaning book.now) (take at.new.base_used regions.new.base.now) links.new }
    ensures remembers { Remembers lists.now (B.RuleBook.meaning book.now) at.new regions.new.branch.now regions.new.base.now regions.new.domains.now befores.new }
    ensures beyond { Beyond (length lists.now) (B.RuleBook.meaning book.now).count regions.old.domains.now regions.new.domains.now regions.old.marks.now regions.new.marks.now regions.old.ends.now regions.new.ends.now regions.old.settled.now regions.new.settled.now }
    ensures kept { KeptWords (length lists.now) at.old.base_used at.new.base_used regions.old.branch.now regions.new.branch.now regions.old.base.now regions.new.base.now }
    ensures plan { regions.new.plan.now ≡ regions.old.plan.now }
{
    let branch = &mut *regions.branch;
    let base = &mut *regions.base;
    let domains = &mut *regions.domains;
    let ready = befores.ready;
    befores.ready = false;
    let remains = refresh(
        ready,
        lists,
        book,
        at,
        branch,
        base,
        links,
        domains,
        regions.marks,
        regions.ends,
        regions.settled,
    );
    if let Err(Dead) = remains {
        return turn_dead(
            order,
            left,
            at,
            &mut domains[..lists.len()],
            branch,
            befores,
        );
    }
    let (remain, _) = domains.split_at(lists.len());
    turn_alive(
        order, policy, left, at, remain, branch, base, links, befores,
    )
}
