// What a search came to, and its account as text.
ghost use Rattle.std.specs.Prelude.{Some};

use search::held::Counts;
use std::fmt;

// What was found of a plan.
#[derive(Drop)]
pub enum Verdict {
    // A plan, one channel a group.
    Plan(Vec<u8>),
    // There is no plan.
    None,
    // Nothing is known yet: the moves that were allowed are made.
    Open,
}

#[derive(Drop)]
pub struct Answer {
    pub verdict: Verdict,
    pub counts: Counts,
    // The base as the search left it: the recorded nogoods one after another, and zeros after them.
    pub base: Vec<u32>,
}

impl fmt::Display for Verdict {
    ghost use Rattle.planner.specs.Accounts.{verdict_text};

    ghost output = { λ v. Some (verdict_text v) };

    fn fmt<W: fmt::Write>(&self, f: &mut fmt::Formatter<W>) -> fmt::Result {
        match self {
            Verdict::Plan(channels) => {
                for (group, channel) in channels.iter().enumerate() {
                    writeln!(f, "group {group} channel {channel}")?;
                }
                Ok(())
            }
            Verdict::None => writeln!(f, "none"),
            Verdict::Open => writeln!(f, "open"),
        }
    }
}

impl fmt::Display for Answer {
    ghost use Rattle.planner.specs.Accounts.{answer_text};

    ghost output = { λ a. Some (answer_text a) };

    fn fmt<W: fmt::Write>(&self, f: &mut fmt::Formatter<W>) -> fmt::Result {
        let verdict = &self.verdict;
        let Counts {
            moves,
            closings,
            restarts,
        } = self.counts;
        write!(
            f,
            "{verdict}moves {moves} closings {closings} restarts {restarts}"
        )
    }
}
