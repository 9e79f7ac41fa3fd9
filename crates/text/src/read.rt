// A text read as a job.
ghost use Rattle.std.specs.Prelude.{◌≡◌, ◌+◌, ℕ, Bool, true, false, IfOk, IfErr, MatchOption, MatchResult, ◌==◌, position};
ghost use Rattle.jobs.specs.Writes.{Flawless};
ghost use Rattle.text.specs.Words.{has_byte, before, behind};
ghost use Rattle.text.specs.Drafts.{Made, made, nothing, Takes, Refuses, lines, Builds, Stuck};

use super::draft::Draft;
use super::fault::{TextFault, Wrong};
use super::line::read_line;
use jobs::item::Item;
use std::alloc::Global;
use std::str;

// What the writer of jobs takes: the items, and the bytes that the rows of its tables are taken from.
#[derive(Drop)]
pub struct TextJob {
    pub items: Vec<Item>,
    pub rows: Vec<u8>,
}

// Where the first line of a text ends, if it does.
fn line_end(text: &[u8]) -> Option<usize>
    ensures { result ≡ position (λ b. b == 10) text.now }
{
    text.iter().position(|b| *b == b'\n')
}

// The first line of a text, and what follows it, where it has an end.
fn cut_line(text: &[u8]) -> (&[u8], Option<&[u8]>)
    ensures line { result.0.now ≡ before 10 text.now }
    ensures rest { MatchOption result.1 (has_byte 10 text.now ≡ false) (λ r. (has_byte 10 text.now ≡ true) × (r.now ≡ behind 10 text.now)) }
{
    match line_end(text) {
        Some(n) => (&text[..n], Some(&text[n + 1..])),
        None => (text, None),
    }
}

// Adds what one line says.
fn add_line<'t>(draft: &mut Draft, line: &'t [u8]) -> Result<(), Wrong<'t>>
    ensures { MatchResult result (λ _. Takes (made draft.old) line.now (made draft.new)) (λ w. Refuses (made draft.old) line.now w) }
{
    match str::from_utf8(line) {
        Ok(text) => draft.add(read_line(text)?),
        Err(_) => Err(Wrong::NotText),
    }
}

// The items that a text says, or its first fault. The writer of jobs takes them: `takes` says so.
pub fn read(heap: Global, text: &[u8]) -> Result<TextJob, TextFault<'_>>
    ensures builds { IfOk result (λ j. (m : Made) × Builds nothing (lines text.now) m × (j.items.items ≡ m.items) × (j.rows.items ≡ m.rows)) }
    ensures takes { IfOk result (λ j. Flawless j.rows.items j.items.items) }
    ensures stuck { IfErr result (λ f. (k : ℕ) × (f.line ≡ k + 1) × Stuck text.now k f.wrong) }
{
    let mut draft = Draft::new(heap);
    let mut rest = Some(text);
    let mut line = 0usize;
    while let Some(text) = rest {
        let (first, more) = cut_line(text);
        line += 1;
        if let Err(wrong) = add_line(&mut draft, first) {
            return Err(TextFault { line, wrong });
        }
        rest = more;
    }
    let Draft {
        items,
        rows,
        given: _,
    } = draft;
    Ok(TextJob { items, rows })
}
