// What remains of the lists, exactly.
ghost use Rattle.std.specs.Prelude.{◌≡◌, ◌<◌, ◌≤◌, length, take, OnOk, OnErr};
ghost use Rattle.std.specs.List.{AllByRecursion};
ghost use Rattle.model.specs.Words.{branch_of, base_of};
ghost use Rattle.model.specs.Remains.{family, Alive};
ghost use Rattle.propagation.specs.Branches.{GroupsBelow, ObeysAll};
ghost use Rattle.propagation.specs.Supports.{Inside, StillWithin};
ghost use Rattle.propagation.specs.Settling.{Emptied};
ghost use Rattle.propagation.specs.Desks.{SameDesk, Small, Laid};
ghost use Rattle.propagation.specs.Bases.{Grouped};
ghost use Rattle.propagation.specs.Links.{Linked};
ghost use Rattle.propagation.specs.Calms.{Agrees};
ghost use Rattle.propagation.specs.Filtered.{Lives, Dies};
ghost use Rattle.propagation.specs.Benches.{SameRegions, Roomy, Beyond};

use super::bench::{Bench, Dead};
use super::desk::Desk;
use super::links::Links;
use super::start::{decide_all, some_empty};
use rules::book::RuleBook;

// The lists after the decisions.
fn prepare(lists: &[u64], branch: &[u32], domains: &mut [u64]) -> Result<(), Dead>
    requires size { length domains.old ≡ length lists.now }
    requires groups { GroupsBelow (length domains.old) branch.now }
    ensures inside { Inside (family domains.new) (family lists.now) }
    ensures obeys { ObeysAll branch.now (family domains.new) }
    ensures within { StillWithin (ObeysAll branch.now) lists.now domains.new }
    ensures dead { OnErr result (Emptied domains.new) }
    ensures alive { OnOk result (Alive domains.new (family domains.new)) }
{
    domains.copy_from_slice(lists);
    decide_all(domains, branch);
    if some_empty(domains) {
        return Err(Dead);
    }
    Ok(())
}

impl<'d, B: RuleBook> Desk<'d, B> {
    // The rules and the nogoods, with the ends across from narrow groups in line at first.
    fn run(&mut self) -> Result<(), Dead>
        requires laid { Laid (B.meaning self.old.book.now) self.old }
        requires alive { Alive self.old.domains.now (family self.old.domains.now) }
        requires small { Small self.old.domains.now }
        ensures same { SameDesk self.old self.new }
        ensures within { StillWithin (Agrees (B.meaning self.old.book.now) (base_of self.old.base.now)) self.old.domains.now self.new.domains.now }
        ensures dead { OnErr result (Emptied self.new.domains.now) }
        ensures inside { OnOk result (Inside (family self.new.domains.now) (family self.old.domains.now)) }
        ensures alive { OnOk result (Alive self.new.domains.now (family self.new.domains.now)) }
        ensures agrees { OnOk result (Agrees (B.meaning self.old.book.now) (base_of self.old.base.now) (family self.new.domains.now)) }
    {
        self.queue_narrow();
        self.heed_all()?;
        self.work()
    }

    // What remains of the lists after the decisions, the rules and the nogoods.
    fn filter(&mut self, lists: &[u64], branch: &[u32]) -> Result<(), Dead>
        requires laid { Laid (B.meaning self.old.book.now) self.old }
        requires groups { length lists.now ≡ (B.meaning self.old.book.now).groups }
        requires decided { GroupsBelow (length lists.now) branch.now }
        ensures same { SameDesk self.old self.new }
        ensures dead { OnErr result (Dies lists.now (B.meaning self.old.book.now) (base_of self.old.base.now) (branch_of branch.now (length branch.now))) }
        ensures lives { OnOk result (Lives lists.now (B.meaning self.old.book.now) (base_of self.old.base.now) (branch_of branch.now (length branch.now)) self.new.domains.now) }
    {
        prepare(lists, branch, self.domains)?;
        self.run()
    }
}

// What remains of the lists, over the regions of a sitting, which may be longer: words beyond the sizes needed are untouched.
// The desk keeps the family in an array of its own, since of a region behind it the check would not know what it is left as.
// An inner call: the search validates what is required here.
pub fn propagate<B: RuleBook>(
    lists: &[u64],
    book: &B,
    branch: &[u32],
    base: &[u32],
    links: &Links,
    bench: &mut Bench<'_>,
) -> Result<(), Dead>
    requires groups { length lists.now ≡ (B.meaning book.now).groups }
    requires narrow { length lists.now ≤ 200 }
    requires rules { (B.meaning book.now).count ≤ 4096 }
    requires linked { Linked (B.meaning book.now) base.now links.now }
    requires roomy { Roomy (length lists.now) (B.meaning book.now).count (length bench.old.domains.now) (length bench.old.marks.now) (length bench.old.ends.now) (length bench.old.settled.now) }
    requires decided { GroupsBelow (length lists.now) branch.now }
    requires grouped { AllByRecursion (Grouped (length lists.now)) (base_of base.now) }
    ensures same { SameRegions bench.old bench.new }
    ensures dead { OnErr result (Dies lists.now (B.meaning book.now) (base_of base.now) (branch_of branch.now (length branch.now))) }
    ensures lives { OnOk result (Lives lists.now (B.meaning book.now) (base_of base.now) (branch_of branch.now (length branch.now)) (take (length lists.now) bench.new.domains.now)) }
    ensures beyond { Beyond (length lists.now) (B.meaning book.now).count bench.old.domains.now bench.new.domains.now bench.old.marks.now bench.new.marks.now bench.old.ends.now bench.new.ends.now bench.old.settled.now bench.new.settled.now }
{
    let n = lists.len();
    let places = 2 * book.count() as usize;
    // The work goes on in an array: of a region in a desk the check does not learn what it is left as.
    let mut remain = [0u64; 200];
    let mut desk = Desk::over(
        book,
        &links.wires,
        &links.spreads,
        base,
        &links.index,
        &mut remain[0..n],
        &mut bench.marks[0..256],
        &mut bench.ends[0..places],
        &mut bench.settled[0..n],
    );
    desk.filter(lists, branch)?;
    desk.write(&mut bench.domains[0..n]);
    Ok(())
}
