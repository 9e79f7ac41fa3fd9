// What the words of the report's command line choose.
ghost use Rattle.std.specs.Prelude.{◌≡◌, Some, None, IfOk, [], ◌∷◌, map, string_bytes};
ghost use Rattle.programs.specs.Words.{number_in, order_in, policy_in};
ghost use Rattle.programs.specs.Chosen.{chosen};
ghost use Rattle.programs.specs.Reported.{settings_of};
ghost use Rattle.planner.specs.Answers.{refusal_of};

use planner::solve::{PROGRAM, Settings};
use std::fmt;

// By which order groups and channels are decided.
#[derive(Clone, Copy)]
pub enum GroupOrder {
    Fewest,
    // Last conflict of so many groups, over fewest first.
    Last(u32),
}

// By which policy the search restarts.
#[derive(Clone, Copy)]
pub enum Restarts {
    Geometric,
    // At so many closings.
    Steady(u32),
}

#[derive(Clone, Copy)]
pub struct Options {
    pub sittings: u32,
    pub moves: u32,
    pub order: GroupOrder,
    pub restarts: Restarts,
}

// What is wrong with the words.
#[derive(Clone, Copy)]
pub enum Wrong {
    Option,
    Value,
    Sittings,
    Moves,
    Together,
    Order,
    Policy,
}

impl fmt::Display for Wrong {
    ghost use Rattle.programs.specs.Chosen.{wrong_text};

    ghost output = { λ w. Some (wrong_text w) };

    fn fmt<W: fmt::Write>(&self, f: &mut fmt::Formatter<W>) -> fmt::Result {
        f.write_str(match self {
            Wrong::Option => {
                "there is no such option: there are --sittings N, --moves N, --order fewest or last:K, --policy geometric or steady:C"
            }
            Wrong::Value => "the last option has no value",
            Wrong::Sittings => "--sittings wants a number from 0 to 100000000",
            Wrong::Moves => "--moves wants a number from 1 to 1000000",
            Wrong::Together => "the sittings have more than 100000000 moves together",
            Wrong::Order => "--order wants fewest or last:K, K a number",
            Wrong::Policy => "--policy wants geometric or steady:C, C a number from 1 to 1000",
        })
    }
}

// The number that a value says, if it is in this range.
fn number(value: &str, least: u32, most: u32) -> Option<u32>
    ensures { result ≡ number_in least most value.now }
{
    match value.parse::<u32>() {
        Ok(n) if least <= n && n <= most => Some(n),
        _ => None,
    }
}

fn named_order(value: &str) -> Option<GroupOrder>
    ensures { result ≡ order_in value.now }
{
    if value == "fewest" {
        return Some(GroupOrder::Fewest);
    }
    let k = number(value.strip_prefix("last:")?, 0, u32::MAX)?;
    Some(GroupOrder::Last(k))
}

fn named_policy(value: &str) -> Option<Restarts>
    ensures { result ≡ policy_in value.now }
{
    if value == "geometric" {
        return Some(Restarts::Geometric);
    }
    let cutoff = number(value.strip_prefix("steady:")?, 1, 1000)?;
    Some(Restarts::Steady(cutoff))
}

impl Options {
    ghost use Rattle.programs.specs.Chosen.{default, wrong_pair, said, unless_wrong, if_few};

    // What the account of a job is searched with.
    pub fn new() -> Options
        ensures { result ≡ default }
    {
        Options {
            sittings: PROGRAM.sittings,
            moves: PROGRAM.allowance,
            order: GroupOrder::Last(1),
            restarts: Restarts::Geometric,
        }
    }

    // These options with one changed.
    fn with(self, name: &str, value: &str) -> Result<Options, Wrong>
        ensures { result ≡ unless_wrong (wrong_pair (name.now, value.now)) (Ok (said self ((name.now, value.now) ∷ []))) }
    {
        let mut options = self;
        match name {
            "--sittings" => {
                options.sittings = number(value, 0, 100_000_000).ok_or(Wrong::Sittings)?;
            }
            "--moves" => options.moves = number(value, 1, 1_000_000).ok_or(Wrong::Moves)?,
            "--order" => options.order = named_order(value).ok_or(Wrong::Order)?,
            "--policy" => options.restarts = named_policy(value).ok_or(Wrong::Policy)?,
            _ => return Err(Wrong::Option),
        }
        Ok(options)
    }

    // The settings of the search, with a base as large as the account's.
    pub fn settings(self) -> Settings
        ensures { result ≡ settings_of self }
    {
        Settings {
            base_words: PROGRAM.base_words,
            sittings: self.sittings,
            allowance: self.moves,
        }
    }

    // These options, unless the sittings have too many moves together.
    fn if_few(self) -> Result<Options, Wrong>
        ensures { result ≡ if_few self }
    {
        match self.sittings.checked_mul(self.moves) {
            Some(moves) if moves <= 100_000_000 => Ok(self),
            _ => Err(Wrong::Together),
        }
    }
}

// The options that the words of a command line choose, or what is wrong with the words.
pub fn read(words: &[String]) -> Result<Options, Wrong>
    ensures chosen { result ≡ chosen (map (λ w. string_bytes w) words.now) }
    ensures within { IfOk result (λ o. refusal_of (settings_of o) ≡ None) }
{
    let mut options = Options::new();
    let mut left = words;
    while let [name, value, rest @ ..] = left {
        options = options.with(name.as_str(), value.as_str())?;
        left = rest;
    }
    if !left.is_empty() {
        return Err(Wrong::Value);
    }
    options.if_few()
}
