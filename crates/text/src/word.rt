// The words of a line, and the numbers that they say.
ghost use Rattle.std.specs.Prelude.{◌≡◌, Some, None, Ok, Err, MatchOption, MatchResult, IfSome, IfOk, ◌<◌};
ghost use Rattle.text.specs.Words.{word as word_of, after_word, number_said, missing, group_said, distance_said, channel_said};

use super::fault::{Expected, Lack};

// The first word of a text that has no space in front, and what follows it, without spaces around.
pub fn cut(text: &str) -> (&str, &str)
    ensures word { result.0.now ≡ word_of text.now }
    ensures rest { result.1.now ≡ after_word text.now }
{
    match text.split_once(' ') {
        Some((word, rest)) => (word, rest.trim()),
        None => (text, ""),
    }
}

// The number that a word of digits says, where it has 16 bits.
pub fn number(word: &str) -> Option<u16>
    ensures { MatchOption result (number_said 65536 word.now ≡ None) (λ n. number_said 65536 word.now ≡ Some n) }
{
    if word.starts_with('+') {
        return None;
    }
    word.parse().ok()
}

// The number that a word of digits says, where it has 8 bits.
pub fn small_number(word: &str) -> Option<u8>
    ensures { MatchOption result (number_said 256 word.now ≡ None) (λ n. number_said 256 word.now ≡ Some n) }
{
    u8::try_from(number(word)?).ok()
}

// The channel that a word says.
pub fn channel(word: &str) -> Option<u8>
    ensures said { MatchOption result (number_said 64 word.now ≡ None) (λ n. number_said 64 word.now ≡ Some n) }
    ensures low { IfSome result (λ n. n < 64) }
{
    let channel = small_number(word)?;
    if channel < 64 { Some(channel) } else { None }
}

// The group that a word says.
pub fn read_group(word: &str) -> Result<u16, Lack<'_>>
    ensures { MatchResult result (λ n. group_said word.now ≡ Ok n) (λ l. group_said word.now ≡ Err (missing l)) }
{
    number(word).ok_or(Lack {
        expected: Expected::Group,
        found: word,
    })
}

// The distance that a word says.
pub fn read_distance(word: &str) -> Result<u8, Lack<'_>>
    ensures { MatchResult result (λ n. distance_said word.now ≡ Ok n) (λ l. distance_said word.now ≡ Err (missing l)) }
{
    small_number(word).ok_or(Lack {
        expected: Expected::Distance,
        found: word,
    })
}

// The channel that a word says, or what it is in place of one.
pub fn read_channel(word: &str) -> Result<u8, Lack<'_>>
    ensures said { MatchResult result (λ n. channel_said word.now ≡ Ok n) (λ l. channel_said word.now ≡ Err (missing l)) }
    ensures low { IfOk result (λ n. n < 64) }
{
    channel(word).ok_or(Lack {
        expected: Expected::Channel,
        found: word,
    })
}
