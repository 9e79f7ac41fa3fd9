// What one line of a text says.
ghost use Rattle.std.specs.Prelude.{◌≡◌, ◌==◌, ℕ, Ok, Err, List, Bool, true, false, MatchResult, length};
ghost use Rattle.text.specs.declared.fault.Expected.TheVariants.{End};
ghost use Rattle.text.specs.Words.{missing, word as word_of, after_word, group_said, said};
ghost use Rattle.text.specs.Lists.{Ends, IsSet};
ghost use Rattle.text.specs.Lines.{keyword as keyword_said, Told, lone_said, gap_told, table_told, row_told, told, IsLine};

use super::fault::{Expected, Lack};
use super::list::read_list;
use super::word::{cut, read_channel, read_distance, read_group};
use rules::gap::GapEntry;

#[derive(Clone, Copy)]
pub enum Line {
    // Nothing, or a comment alone.
    Blank,
    // A group with its list.
    Group(u64),
    // A rule by its gap.
    Gap(GapEntry),
    // A rule by permitted pairs, between two groups; its rows follow.
    Table(u16, u16),
    // The row of a channel.
    Row(u8, u64),
}

// What the first word of a line says of it.
#[derive(Clone, Copy)]
enum Keyword {
    Blank,
    Group,
    Gap,
    Table,
    Other,
}

// The keyword that a word is.
fn keyword_of(word: &str) -> Keyword
    ensures { result ≡ keyword_said word.now }
{
    if word.is_empty() {
        Keyword::Blank
    } else if word == "group" {
        Keyword::Group
    } else if word == "gap" {
        Keyword::Gap
    } else if word == "table" {
        Keyword::Table
    } else {
        Keyword::Other
    }
}

// Whether a text ends here.
fn read_end(text: &str) -> Result<(), Lack<'_>>
    ensures { MatchResult result (λ _. (length text.now == 0) ≡ true) (λ l. ((length text.now == 0) ≡ false) × (missing l ≡ (End, word_of text.now))) }
{
    if text.is_empty() {
        Ok(())
    } else {
        Err(Lack {
            expected: Expected::End,
            found: cut(text).0,
        })
    }
}

// The list that a text is.
fn lone_list(text: &str) -> Result<u64, Lack<'_>>
    ensures { MatchResult result (IsSet (lone_said text.now)) (λ l. lone_said text.now ≡ Err (missing l)) }
{
    let (list, rest) = cut(text);
    let set = read_list(list)?;
    read_end(rest)?;
    Ok(set)
}

// The group at the front of a text, and what follows it.
fn cut_group(text: &str) -> Result<(u16, &str), Lack<'_>>
    ensures { MatchResult result (λ p. (group_said (word_of text.now) ≡ Ok p.0) × (p.1.now ≡ after_word text.now)) (λ l. group_said (word_of text.now) ≡ Err (missing l)) }
{
    let (word, rest) = cut(text);
    Ok((read_group(word)?, rest))
}

// A gap, behind its word.
fn read_gap(text: &str) -> Result<GapEntry, Lack<'_>>
    ensures { MatchResult result (λ e. gap_told text.now ≡ Ok (Told.gap e.first e.second e.gap)) (λ l. gap_told text.now ≡ Err (missing l)) }
{
    let (first, text) = cut_group(text)?;
    let (second, text) = cut_group(text)?;
    let (word, rest) = cut(text);
    let gap = read_distance(word)?;
    read_end(rest)?;
    Ok(GapEntry { first, second, gap })
}

// The groups of a table, behind its word.
fn read_table(text: &str) -> Result<(u16, u16), Lack<'_>>
    ensures { MatchResult result (λ p. table_told text.now ≡ Ok (Told.table p.0 p.1)) (λ l. table_told text.now ≡ Err (missing l)) }
{
    let (first, text) = cut_group(text)?;
    let (second, text) = cut_group(text)?;
    read_end(text)?;
    Ok((first, second))
}

// The channel and the list of a row.
fn read_row(text: &str) -> Result<(u8, u64), Lack<'_>>
    ensures { MatchResult result (λ p. (ss : List Ends) × (row_told text.now ≡ Ok (Told.row p.0 ss)) × IsSet (Ok ss) p.1) (λ l. row_told text.now ≡ Err (missing l)) }
{
    let Some((front, list)) = text.split_once(':') else {
        return Err(Lack {
            expected: Expected::Item,
            found: cut(text).0,
        });
    };
    let channel = read_channel(front)?;
    Ok((channel, lone_list(list.trim())?))
}

// What stands before a comment, without spaces around.
fn without_comment(text: &str) -> &str
    ensures { result.now ≡ said text.now }
{
    match text.split_once('#') {
        Some((said, _)) => said.trim(),
        None => text.trim(),
    }
}

// What a line says. A `#` and what follows it is a comment.
pub fn read_line(text: &str) -> Result<Line, Lack<'_>>
    ensures { MatchResult result (λ l. (t : Told) × (told text.now ≡ Ok t) × IsLine t l) (λ l. told text.now ≡ Err (missing l)) }
{
    let said = without_comment(text);
    let (word, rest) = cut(said);
    match keyword_of(word) {
        Keyword::Blank => Ok(Line::Blank),
        Keyword::Group => Ok(Line::Group(lone_list(rest)?)),
        Keyword::Gap => Ok(Line::Gap(read_gap(rest)?)),
        Keyword::Table => {
            let (first, second) = read_table(rest)?;
            Ok(Line::Table(first, second))
        }
        Keyword::Other => {
            let (channel, list) = read_row(said)?;
            Ok(Line::Row(channel, list))
        }
    }
}
