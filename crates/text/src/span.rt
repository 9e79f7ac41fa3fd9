// Channels that follow one another, as a list names them: one channel, or a range.
ghost use Rattle.std.specs.Prelude.{◌≡◌, ℕ, ◌≤◌, ◌<◌, if◌then◌else◌, Some, Ok, Err, MatchResult};
ghost use Rattle.rules.specs.Channels.{has};
ghost use Rattle.text.specs.Words.{missing, has_byte, before, behind};

use super::fault::{Expected, Lack};
use super::word::read_channel;
use std::fmt;

#[derive(Clone, Copy, PartialEq, Eq, Debug)]
pub struct Span {
    pub first: u8,
    pub last: u8,
    pub ghost rising: { first ≤ last },
    pub ghost within: { last < 64 },
}

// The two words round the first dash, or a word without one twice.
fn halves(word: &str) -> (&str, &str)
    ensures first { result.0.now ≡ before 45 word.now }
    ensures last { result.1.now ≡ (if has_byte 45 word.now then behind 45 word.now else word.now) }
{
    match word.split_once('-') {
        Some((first, last)) => (first, last),
        None => (word, word),
    }
}

impl Span {
    // These name the struct itself, so they are brought in here and not above it.
    ghost use Rattle.text.specs.Lists.{ends, covers, span_said};

    // What a word says: a channel, or two with a dash between.
    pub fn read(word: &str) -> Result<Span, Lack<'_>>
        ensures { MatchResult result (λ s. span_said word.now ≡ Ok (ends s)) (λ l. span_said word.now ≡ Err (missing l)) }
    {
        let (front, back) = halves(word);
        let first = read_channel(front)?;
        let last = read_channel(back)?;
        if last < first {
            return Err(Lack {
                expected: Expected::RisingRange,
                found: word,
            });
        }
        Ok(Span { first, last })
    }

    // Its channels as a set.
    pub fn set(&self) -> u64
        ensures { (c : ℕ) → has result c ≡ covers (ends self.now) c }
    {
        (u64::MAX >> (63 - self.last)) & (u64::MAX << self.first)
    }
}

impl fmt::Display for Span {
    ghost use Rattle.text.specs.Lists.{ends, span_text};

    ghost output = { λ s. Some (span_text (ends s)) };

    fn fmt<W: fmt::Write>(&self, f: &mut fmt::Formatter<W>) -> fmt::Result {
        let first = self.first;
        let last = self.last;
        if first == last {
            write!(f, "{first}")
        } else {
            write!(f, "{first}-{last}")
        }
    }
}
