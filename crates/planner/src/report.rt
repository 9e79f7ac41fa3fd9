// The report of a search: its account, what it closed and its decisions in hand, as text.
ghost use Rattle.std.specs.Prelude.{◌≡◌, ◌*◌, ◌≤◌, ◌++◌, length, vec_len, vec_items, Some, IfOk, IfErr, IsOkUnless, MatchResult};
ghost use Rattle.model.specs.Decisions.{reduced};
ghost use Rattle.std.specs.List.{flat_map};
ghost use Rattle.model.specs.Words.{decision, base_of, branch_of, recorded};
ghost use Rattle.search.specs.Ends.{came_to};
ghost use Rattle.planner.specs.declared.error.PlanError.TheVariants.{NoMemory};
ghost use Rattle.planner.specs.Answers.{Unanswered, RefusedAsDue};
ghost use Rattle.planner.specs.Reports.{Tells, Reported, Unreported};
ghost use Rattle.planner.specs.Accounts.{assigned_text, listed_text, closed_text, decided_text, none_text};

use crate::answer::{Answer, Verdict};
use crate::error::PlanError;
use crate::memory::Memory;
use crate::solve::{Settings, searched};
use branching::{Order, RestartPolicy};
use model::base::Nogoods;
use model::decision::{Decision, channel_of, group_of};
use search::held::Sat;
use search::recording::record_nogoods;
use search::words::words_needed;
use std::alloc::Global;
use std::{fmt, mem};

#[derive(Drop)]
pub struct Report {
    pub answer: Answer,
    // The nogoods that shut choices out, one after another: those of the base, and then the reduced ones of the branch.
    pub closed: Vec<u32>,
    // The decisions in hand, as words, in branch order.
    pub branch: Vec<u32>,
}

// The words of a base, and the reduced nogoods of a branch behind them.
fn closed_words(heap: Global, base: &[u32], branch: &[u32]) -> Result<Vec<u32>, PlanError>
    requires base { length base.now ≤ 4294967296 }
    requires few { length branch.now ≤ 12800 }
    ensures words { IfOk result (λ v. vec_items v ≡ base.now ++ recorded (reduced (branch_of branch.now (length branch.now)))) }
    ensures memory { IsOkUnless result NoMemory }
{
    let mut words = Vec::new(heap);
    words.extend_from_slice(base)?;
    words.resize(base.len() + words_needed(branch), 0)?;
    record_nogoods(&mut words, base.len(), branch);
    Ok(words)
}

// What a search left in its regions.
fn told(heap: Global, mut memory: Memory, sat: Sat) -> Result<Report, PlanError>
    requires used { (came_to sat).base_used ≤ vec_len memory.base }
    requires few { vec_len memory.branch ≤ 12800 }
    ensures report { IfOk result (Tells memory sat) }
    ensures memory { IsOkUnless result NoMemory }
{
    let used = sat.base_used() as usize;
    let mut branch = mem::replace(&mut memory.branch, Vec::new(heap));
    branch.truncate(sat.branch_len() as usize);
    let answer = memory.answer(sat);
    let closed = closed_words(heap, &answer.base[..used], &branch)?;
    Ok(Report {
        answer,
        closed,
        branch,
    })
}

// The report of the search that `solve` makes on a job, or why there is none, as `solve` has it. Only memory for the report itself may be wanting after the sittings.
pub fn explain<O: Order, P: RestartPolicy>(
    heap: Global,
    job: &[u8],
    order: &mut O,
    policy: &mut P,
    settings: Settings,
) -> Result<Report, PlanError>
    ensures reports { MatchResult result (Reported O.meaning P.meaning job.now settings (O.held order.old) (O.held order.new) (P.held policy.old) (P.held policy.new)) (Unanswered job.now settings) }
    ensures refused { RefusedAsDue job.now settings result }
    ensures kept { IfErr result (Unreported O.meaning P.meaning O.held P.held job.now settings order.old order.new policy.old policy.new) }
{
    let (memory, sat) = searched(heap, job, order, policy, settings)?;
    told(heap, memory, sat)
}

// An assignment, by its word.
#[derive(Clone, Copy)]
struct Assigned(u32);

impl fmt::Display for Assigned {
    ghost output = { λ a. Some (assigned_text a.0) };

    fn fmt<W: fmt::Write>(&self, f: &mut fmt::Formatter<W>) -> fmt::Result {
        let group = group_of(self.0);
        let channel = channel_of(self.0);
        write!(f, "group {group} channel {channel}")
    }
}

// A nogood, by the words of its assignments.
#[derive(Clone, Copy)]
struct Listed<'a>(&'a [u32]);

impl<'a> fmt::Display for Listed<'a> {
    ghost output = { λ n. Some (listed_text n.0.now) };

    fn fmt<W: fmt::Write>(&self, f: &mut fmt::Formatter<W>) -> fmt::Result {
        match self.0.split_first() {
            None => Ok(()),
            Some((first, rest)) => {
                let assigned = Assigned(*first);
                write!(f, " {assigned}")?;
                for word in rest {
                    let assigned = Assigned(*word);
                    write!(f, ", {assigned}")?;
                }
                Ok(())
            }
        }
    }
}

// The nogoods in some words, a line each.
#[derive(Clone, Copy)]
struct Closed<'a>(&'a [u32]);

impl<'a> fmt::Display for Closed<'a> {
    ghost output = { λ c. Some (flat_map (λ n. closed_text n) (base_of c.0.now)) };

    fn fmt<W: fmt::Write>(&self, f: &mut fmt::Formatter<W>) -> fmt::Result {
        for (_count, nogood) in Nogoods(self.0) {
            let listed = Listed(nogood);
            write!(f, "\nclosed:{listed}")?;
        }
        Ok(())
    }
}

// A decision of a branch, by its word.
#[derive(Clone, Copy)]
struct Decided(u32);

impl fmt::Display for Decided {
    ghost output = { λ d. Some (decided_text (decision d.0)) };

    fn fmt<W: fmt::Write>(&self, f: &mut fmt::Formatter<W>) -> fmt::Result {
        match Decision::from(self.0) {
            Decision::Taken(word) => {
                let assigned = Assigned(word);
                write!(f, "\ntaken: {assigned}")
            }
            Decision::Refused(word) => {
                let assigned = Assigned(word);
                write!(f, "\nrefused: {assigned}")
            }
        }
    }
}

// The decisions of a branch, a line each.
#[derive(Clone, Copy)]
struct Decisions<'a>(&'a [u32]);

impl<'a> fmt::Display for Decisions<'a> {
    ghost output = { λ b. Some (flat_map (λ w. decided_text (decision w)) b.0.now) };

    fn fmt<W: fmt::Write>(&self, f: &mut fmt::Formatter<W>) -> fmt::Result {
        for word in self.0 {
            let decided = Decided(*word);
            write!(f, "{decided}")?;
        }
        Ok(())
    }
}

// What is told of a "none" behind its account.
#[derive(Clone, Copy)]
struct Sentence<'a>(&'a Verdict);

impl<'a> fmt::Display for Sentence<'a> {
    ghost output = { λ s. Some (none_text s.0.now) };

    fn fmt<W: fmt::Write>(&self, f: &mut fmt::Formatter<W>) -> fmt::Result {
        match self.0 {
            Verdict::None => write!(
                f,
                "\nnone: nothing is taken and some group keeps nothing of its list"
            ),
            Verdict::Plan(_) | Verdict::Open => Ok(()),
        }
    }
}

impl fmt::Display for Report {
    ghost use Rattle.planner.specs.Accounts.{report_text};

    ghost output = { λ r. Some (report_text r) };

    fn fmt<W: fmt::Write>(&self, f: &mut fmt::Formatter<W>) -> fmt::Result {
        let answer = &self.answer;
        let sentence = Sentence(&answer.verdict);
        let closed = Closed(&self.closed);
        let decisions = Decisions(&self.branch);
        write!(f, "{answer}{sentence}{closed}{decisions}")
    }
}
