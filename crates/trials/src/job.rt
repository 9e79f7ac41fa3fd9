// A small job as the trials hold it: its bytes, and whether a plan keeps its rules.
ghost use Rattle.std.specs.Prelude.{◌≡◌, ℕ, ◌≤◌, ◌++◌, Bool, List, length, min, IfOk, MatchOption, OnOk};
ghost use Rattle.std.specs.List.{flat_map, list_all, zip};
ghost use Rattle.std.specs.Int.{to_be_bytes, w16, w64};
ghost use Rattle.trials.specs.Bytes.{number, record_length, record_bytes, group_bytes, gap_bytes, table_bytes, job_bytes};
ghost use Rattle.trials.specs.Kept.{has, listed, apart, in_rows, kept, all_kept, plan};

use std::alloc::{AllocError, Global};

// What a record of a job's bytes tells. Nothing in this file is shared with the crates that it is held against.
#[derive(Clone, Copy)]
enum Kind {
    Counts,
    Group,
    Gap,
    Table,
}

#[derive(Clone, Copy)]
pub struct Gap {
    pub first: u16,
    pub second: u16,
    pub gap: u8,
}

#[derive(Clone, Copy)]
pub struct Table {
    pub first: u16,
    pub second: u16,
    // A table has just so many.
    pub rows: [u64; 64],
}

#[derive(Drop)]
pub struct Job {
    pub lists: Vec<u64>,
    pub gaps: Vec<Gap>,
    pub tables: Vec<Table>,
}

// Whether the set has the channel.
pub fn has(set: u64, channel: u8) -> bool
    ensures { result ≡ has set channel }
{
    channel < 64 && (set >> channel) % 2 == 1
}

// A rule between two groups.
trait Rule {
    ghost ends: { Self → ℕ × ℕ };

    ghost permitted: { Self → ℕ → ℕ → Bool };

    ghost told: { Self → List ℕ };

    fn groups(&self) -> (u16, u16)
        ensures { result ≡ ends self.now };

    // Whether the first group may have channel a beside channel b of the second.
    fn permits(&self, a: u8, b: u8) -> bool
        ensures { result ≡ permitted self.now a b };

    // Adds the rule's record.
    fn add_to(&self, out: &mut Vec<u8>) -> Result<(), AllocError>
        ensures { OnOk result (out.new.items ≡ out.old.items ++ told self.now) };
}

impl Rule for Gap {
    ghost ends = { λ g. (g.first, g.second) };

    ghost permitted = { λ g. apart g.gap };

    ghost told = { gap_bytes };

    fn groups(&self) -> (u16, u16) {
        (self.first, self.second)
    }

    fn permits(&self, a: u8, b: u8) -> bool {
        a.abs_diff(b) >= self.gap
    }

    fn add_to(&self, out: &mut Vec<u8>) -> Result<(), AllocError> {
        add_record(out, Kind::Gap, self.groups())?;
        out.push(self.gap)?;
        Ok(())
    }
}

impl Rule for Table {
    ghost ends = { λ t. (t.first, t.second) };

    ghost permitted = { λ t. in_rows t.rows };

    ghost told = { table_bytes };

    fn groups(&self) -> (u16, u16) {
        (self.first, self.second)
    }

    fn permits(&self, a: u8, b: u8) -> bool {
        a < 64 && has(self.rows[usize::from(a)], b)
    }

    fn add_to(&self, out: &mut Vec<u8>) -> Result<(), AllocError> {
        add_record(out, Kind::Table, self.groups())?;
        add_words(out, &self.rows)
    }
}

// Whether the channels so far, one a group, keep the rule; a group past them has none yet.
fn keeps<R: Rule>(channels: &[u8], rule: &R) -> bool
    ensures { result ≡ kept channels.now (R.ends rule.now) (R.permitted rule.now) }
{
    let (first, second) = rule.groups();
    match (
        channels.get(usize::from(first)),
        channels.get(usize::from(second)),
    ) {
        (Some(a), Some(b)) => rule.permits(*a, *b),
        _ => true,
    }
}

fn keeps_all<R: Rule>(channels: &[u8], rules: &[R]) -> bool
    ensures { result ≡ list_all (λ r. kept channels.now (R.ends r) (R.permitted r)) rules.now }
{
    rules.iter().all(|rule| keeps(channels, rule))
}

fn are_listed(channels: &[u8], lists: &[u64]) -> bool
    ensures { result ≡ list_all listed (zip channels.now lists.now) }
{
    channels
        .iter()
        .zip(lists)
        .all(|(channel, list)| has(*list, *channel))
}

// A count as a record has it.
fn half_word(count: usize) -> u16
    ensures { result ≡ min count 65535 }
{
    u16::try_from(count).unwrap_or(u16::MAX)
}

fn add_word(out: &mut Vec<u8>, word: u64) -> Result<(), AllocError>
    ensures { OnOk result (out.new.items ≡ out.old.items ++ to_be_bytes w64 word) }
{
    out.extend_from_slice(&word.to_be_bytes())
}

fn add_words(out: &mut Vec<u8>, words: &[u64]) -> Result<(), AllocError>
    ensures { OnOk result (out.new.items ≡ out.old.items ++ flat_map (to_be_bytes w64) words.now) }
{
    for word in words {
        add_word(out, *word)?;
    }
    Ok(())
}

fn add_record(out: &mut Vec<u8>, kind: Kind, numbers: (u16, u16)) -> Result<(), AllocError>
    ensures { OnOk result (out.new.items ≡ out.old.items ++ record_bytes (number kind) numbers) }
{
    out.push(kind as u8)?;
    out.extend_from_slice(&numbers.0.to_be_bytes())?;
    out.extend_from_slice(&numbers.1.to_be_bytes())
}

fn add_groups(out: &mut Vec<u8>, lists: &[u64]) -> Result<(), AllocError>
    ensures { OnOk result (out.new.items ≡ out.old.items ++ flat_map group_bytes lists.now) }
{
    for list in lists {
        out.push(Kind::Group as u8)?;
        add_word(out, *list)?;
    }
    Ok(())
}

fn add_rules<R: Rule>(out: &mut Vec<u8>, rules: &[R]) -> Result<(), AllocError>
    ensures { OnOk result (out.new.items ≡ out.old.items ++ flat_map R.told rules.now) }
{
    for rule in rules {
        rule.add_to(out)?;
    }
    Ok(())
}

impl Job {
    // The job as a load reads it.
    pub fn bytes(&self, heap: Global) -> Result<Vec<u8>, AllocError>
        ensures { IfOk result (λ v. v.items ≡ job_bytes self.now.lists.items self.now.gaps.items self.now.tables.items) }
    {
        let mut out = Vec::new(heap);
        add_groups(&mut out, &self.lists)?;
        add_rules(&mut out, &self.gaps)?;
        add_rules(&mut out, &self.tables)?;
        let groups = half_word(self.lists.len());
        let rules = half_word(self.gaps.len().saturating_add(self.tables.len()));
        add_record(&mut out, Kind::Counts, (groups, rules))?;
        Ok(out)
    }

    // Whether the channels so far keep every rule between their groups.
    pub fn keeps_rules(&self, channels: &[u8]) -> bool
        ensures { result ≡ all_kept channels.now self.now.gaps.items self.now.tables.items }
    {
        keeps_all(channels, &self.gaps) && keeps_all(channels, &self.tables)
    }

    // Whether the channels are a plan: one listed channel for each group, and every rule kept.
    pub fn is_plan(&self, channels: &[u8]) -> bool
        ensures { result ≡ plan channels.now self.now.lists.items self.now.gaps.items self.now.tables.items }
    {
        channels.len() == self.lists.len()
            && are_listed(channels, &self.lists)
            && self.keeps_rules(channels)
    }
}

// How long a record is, by its first byte.
fn record_len(kind: u8) -> usize
    ensures length { result ≡ record_length kind }
    ensures some { 1 ≤ result }
{
    match kind {
        0 => 5,
        1 => 9,
        2 => 6,
        _ => 517,
    }
}

// Where an input ends too early, if it does: the offset of the record that it cuts off, or of one that is missing before an end record.
pub fn ends_early(bytes: &[u8]) -> Option<usize>
    ensures { MatchOption result (5 ≤ length bytes.now) (λ at. at ≤ length bytes.now) }
{
    let mut rest = bytes;
    while let Some(kind) = rest.first().copied()
        && let Some(later) = rest.get(record_len(kind)..)
    {
        if kind == 0 {
            return None;
        }
        rest = later;
    }
    Some(bytes.len() - rest.len())
}
