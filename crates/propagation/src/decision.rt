// What remains after one more decision, worked out from the family in hand.
ghost use Rattle.std.specs.Prelude.{◌≡◌, ℕ, ◌-◌, ◌<◌, ◌≤◌, true, length, take, OnOk, OnErr, slice_index, slice_set};
ghost use Rattle.std.specs.List.{AllByRecursion};
ghost use Rattle.rules.specs.Channels.{has};
ghost use Rattle.model.specs.Masks.{grp};
ghost use Rattle.model.specs.Decisions.{word as assigned};
ghost use Rattle.model.specs.Words.{decision, base_of, branch_of};
ghost use Rattle.model.specs.Remains.{family, Obeys, Alive};
ghost use Rattle.propagation.specs.Supports.{Inside, StillWithin};
ghost use Rattle.propagation.specs.Settling.{Emptied};
ghost use Rattle.propagation.specs.Desks.{SameDesk, Small, Laid};
ghost use Rattle.propagation.specs.Bases.{Grouped};
ghost use Rattle.propagation.specs.Links.{Linked};
ghost use Rattle.propagation.specs.Calms.{Agrees};
ghost use Rattle.propagation.specs.Filtered.{Lives, Dies};
ghost use Rattle.propagation.specs.Benches.{SameRegions, Roomy, Beyond};

use super::bench::{Bench, Dead};
use super::desk::Desk;
use super::links::Links;
use super::start::left_by;
use rules::book::RuleBook;

impl<'d, B: RuleBook> Desk<'d, B> {
    // The rules and the nogoods, where nothing was amiss before group `g` came to keep the channels of `keeps`.
    fn resume(&mut self, g: u16, keeps: u64) -> Result<(), Dead>
        requires laid { Laid (B.meaning self.old.book.now) self.old }
        requires alive { Alive self.old.domains.now (family self.old.domains.now) }
        requires small { Small self.old.domains.now }
        requires agrees { Agrees (B.meaning self.old.book.now) (base_of self.old.base.now) (family self.old.domains.now) }
        requires group { g < length self.old.domains.now }
        requires inside { (j : ℕ) → has keeps j ≡ true → has (slice_index self.old.domains.now g) j ≡ true }
        ensures same { SameDesk self.old self.new }
        ensures within { StillWithin (Agrees (B.meaning self.old.book.now) (base_of self.old.base.now)) (slice_set self.old.domains.now g keeps) self.new.domains.now }
        ensures dead { OnErr result (Emptied self.new.domains.now) }
        ensures inside { OnOk result (Inside (family self.new.domains.now) (family (slice_set self.old.domains.now g keeps))) }
        ensures alive { OnOk result (Alive self.new.domains.now (family self.new.domains.now)) }
        ensures agrees { OnOk result (Agrees (B.meaning self.old.book.now) (base_of self.old.base.now) (family self.new.domains.now)) }
    {
        self.shrink(g, keeps)?;
        self.work()
    }

    // The group of the decision of a word, and the channels that are left to it. (A method of its own, as `forced`.)
    fn left_by(&self, word: u32) -> (usize, u64)
        requires { grp (assigned (decision word)) < length self.now.domains.now }
        ensures group { result.0 ≡ grp (assigned (decision word)) }
        ensures inside { (j : ℕ) → has result.1 j ≡ true → has (slice_index self.now.domains.now result.0) j ≡ true }
        ensures obeys { Obeys (family (slice_set self.now.domains.now result.0 result.1)) (decision word) }
        ensures within { StillWithin (λ k. Obeys k (decision word)) self.now.domains.now (slice_set self.now.domains.now result.0 result.1) }
    {
        left_by(self.domains, word)
    }

    // What remains once one more decision is made.
    fn filter_decision(&mut self, lists: &[u64], branch: &[u32]) -> Result<(), Dead>
        requires laid { Laid (B.meaning self.old.book.now) self.old }
        requires groups { length lists.now ≡ (B.meaning self.old.book.now).groups }
        requires some { 0 < length branch.now }
        requires group { grp (assigned (decision (slice_index branch.now (length branch.now - 1)))) < length lists.now }
        requires before { Lives lists.now (B.meaning self.old.book.now) (base_of self.old.base.now) (branch_of branch.now (length branch.now - 1)) self.old.domains.now }
        ensures same { SameDesk self.old self.new }
        ensures dead { OnErr result (Dies lists.now (B.meaning self.old.book.now) (base_of self.old.base.now) (branch_of branch.now (length branch.now))) }
        ensures lives { OnOk result (Lives lists.now (B.meaning self.old.book.now) (base_of self.old.base.now) (branch_of branch.now (length branch.now)) self.new.domains.now) }
    {
        let word = branch[branch.len() - 1];
        let (g, keeps) = self.left_by(word);
        self.resume(g as u16, keeps)
    }
}

// What remains once the newest decision of the branch is made, where the region has what remained before it.
// Only what that decision calls for is looked at. Words beyond the sizes needed are untouched. An inner call, like `propagate`.
pub fn propagate_decision<B: RuleBook>(
    lists: &[u64],
    book: &B,
    branch: &[u32],
    base: &[u32],
    links: &Links,
    bench: &mut Bench<'_>,
) -> Result<(), Dead>
    requires groups { length lists.now ≡ (B.meaning book.now).groups }
    requires narrow { length lists.now ≤ 200 }
    requires rules { (B.meaning book.now).count ≤ 4096 }
    requires linked { Linked (B.meaning book.now) base.now links.now }
    requires roomy { Roomy (length lists.now) (B.meaning book.now).count (length bench.old.domains.now) (length bench.old.marks.now) (length bench.old.ends.now) (length bench.old.settled.now) }
    requires grouped { AllByRecursion (Grouped (length lists.now)) (base_of base.now) }
    requires some { 0 < length branch.now }
    requires group { grp (assigned (decision (slice_index branch.now (length branch.now - 1)))) < length lists.now }
    requires before { Lives lists.now (B.meaning book.now) (base_of base.now) (branch_of branch.now (length branch.now - 1)) (take (length lists.now) bench.old.domains.now) }
    ensures same { SameRegions bench.old bench.new }
    ensures dead { OnErr result (Dies lists.now (B.meaning book.now) (base_of base.now) (branch_of branch.now (length branch.now))) }
    ensures lives { OnOk result (Lives lists.now (B.meaning book.now) (base_of base.now) (branch_of branch.now (length branch.now)) (take (length lists.now) bench.new.domains.now)) }
    ensures beyond { Beyond (length lists.now) (B.meaning book.now).count bench.old.domains.now bench.new.domains.now bench.old.marks.now bench.new.marks.now bench.old.ends.now bench.new.ends.now bench.old.settled.now bench.new.settled.now }
{
    let n = lists.len();
    let places = 2 * book.count() as usize;
    // In an array, as in `propagate`, which starts otherwise and lays out its desk in the same lines: no function can hand a desk out.
    let mut remain = [0u64; 200];
    bench.read(&mut remain[0..n]);
    let mut desk = Desk::over(
        book,
        &links.wires,
        &links.spreads,
        base,
        &links.index,
        &mut remain[0..n],
        &mut bench.marks[0..256],
        &mut bench.ends[0..places],
        &mut bench.settled[0..n],
    );
    desk.filter_decision(lists, branch)?;
    desk.write(&mut bench.domains[0..n]);
    Ok(())
}
