// How often each verdict came, and how often it was not the one that trying every choice gives.
ghost use Rattle.std.specs.Prelude.{◌≡◌};
ghost use Rattle.trials.specs.Kept.{plan};
ghost use Rattle.trials.specs.Tallies.{one_more, noted, fronted};

use crate::job::Job;
use planner::answer::{Answer, Verdict};
use planner::error::PlanError;
use std::fmt;

#[derive(Clone, Copy, Default)]
pub struct Tally {
    pub plans: u32,
    pub none: u32,
    pub open: u32,
    pub disagreements: u32,
}

// The same of inputs that end too early.
#[derive(Clone, Copy, Default)]
pub struct Fronts {
    pub refused: u32,
    pub disagreements: u32,
}

// Counts one more, as far as the count can go.
pub fn count_one(count: &mut u32)
    ensures { count.new ≡ one_more count.old }
{
    *count = count.saturating_add(1);
}

impl Tally {
    // Counts the answer to a job of which it is known whether it has a plan.
    pub fn note(&mut self, job: &Job, solvable: bool, answer: Result<Answer, PlanError>)
        ensures { self.new ≡ noted self.old solvable (λ channels. plan channels job.now.lists.items job.now.gaps.items job.now.tables.items) answer }
    {
        match answer.map(|answer| answer.verdict) {
            Ok(Verdict::Plan(channels)) if solvable && job.is_plan(&channels) => count_one(
                &mut self.plans,
            ),
            Ok(Verdict::None) if !solvable => count_one(&mut self.none),
            Ok(Verdict::Open) => count_one(&mut self.open),
            _ => count_one(&mut self.disagreements),
        }
    }
}

impl Fronts {
    // Counts the answer to an input of which it is known where it ends too early, if it does.
    pub fn note(&mut self, ends: Option<usize>, answer: Result<Answer, PlanError>)
        ensures { self.new ≡ fronted self.old ends answer }
    {
        match (ends, answer) {
            (Some(at), Err(PlanError::Refused(refusal)))
                if refusal.number() == 1 && refusal.place() == at => count_one(&mut self.refused),
            _ => count_one(&mut self.disagreements),
        }
    }
}

impl fmt::Display for Tally {
    fn fmt<W: fmt::Write>(&self, f: &mut fmt::Formatter<W>) -> fmt::Result {
        let Tally {
            plans,
            none,
            open,
            disagreements,
        } = *self;
        write!(
            f,
            "{plans} plans, {none} none, {open} open, {disagreements} disagreements"
        )
    }
}

impl fmt::Display for Fronts {
    fn fmt<W: fmt::Write>(&self, f: &mut fmt::Formatter<W>) -> fmt::Result {
        let Fronts {
            refused,
            disagreements,
        } = *self;
        write!(f, "{refused} refused, {disagreements} disagreements")
    }
}
