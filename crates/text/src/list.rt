// Lists of channels: a text read as a set, and a set written with its ranges merged.
ghost use Rattle.std.specs.Prelude.{◌≡◌, ℕ, ◌+◌, ◌<◌, ◌||◌, map, Some, Err, MatchResult, IfOk, OnOk, ◌==◌};
ghost use Rattle.rules.specs.Channels.{has};
ghost use Rattle.text.specs.Words.{missing};
ghost use Rattle.text.specs.Lists.{Apart, Below, ends, listed, list_said, IsSet, list_text};

use super::fault::Lack;
use super::span::Span;
use rules::channels::has_channel;
use std::alloc::{AllocError, Global};
use std::fmt;

// The set that a list says: channels and ranges with a comma between; the empty text lists none.
pub fn read_list(text: &str) -> Result<u64, Lack<'_>>
    ensures { MatchResult result (IsSet (list_said text.now)) (λ l. list_said text.now ≡ Err (missing l)) }
{
    if text.is_empty() {
        return Ok(0);
    }
    let mut set = 0;
    let mut rest = text;
    while let Some((word, more)) = rest.split_once(',') {
        set |= Span::read(word)?.set();
        rest = more;
    }
    Ok(set | Span::read(rest)?.set())
}

// The channels of a set as text: what follows the word of an item.
#[derive(Drop)]
pub struct ChannelList {
    pub spans: Vec<Span>,
}

// Adds a channel: to the last span, where it follows it, and else as a span of its own.
fn add_channel(spans: &mut Vec<Span>, channel: u8) -> Result<(), AllocError>
    requires low { channel < 64 }
    requires above { Below channel (map ends spans.old.items) }
    requires apart { Apart 0 (map ends spans.old.items) }
    ensures channels { OnOk result ((c : ℕ) → listed (map ends spans.new.items) c ≡ (listed (map ends spans.old.items) c || (c == channel))) }
    ensures below { OnOk result (Below (channel + 1) (map ends spans.new.items)) }
    ensures apart { OnOk result (Apart 0 (map ends spans.new.items)) }
{
    let lone = Span {
        first: channel,
        last: channel,
    };
    match spans.pop() {
        None => spans.push(lone)?,
        Some(top) if top.last + 1 == channel => spans.push(Span {
            first: top.first,
            last: channel,
        })?,
        Some(top) => {
            spans.push(top)?;
            spans.push(lone)?;
        }
    }
    Ok(())
}

impl ChannelList {
    // The spans of a set, as few as can be, from the lowest on.
    pub fn new(heap: Global, set: u64) -> Result<ChannelList, AllocError>
        ensures channels { IfOk result (λ l. (c : ℕ) → has set c ≡ listed (map ends l.spans.items) c) }
        ensures apart { IfOk result (λ l. Apart 0 (map ends l.spans.items)) }
    {
        let mut spans = Vec::new(heap);
        for channel in 0..64u8 {
            if has_channel(set, channel) {
                add_channel(&mut spans, channel)?;
            }
        }
        Ok(ChannelList { spans })
    }
}

impl fmt::Display for ChannelList {
    ghost output = { λ l. Some (list_text l.spans.items) };

    fn fmt<W: fmt::Write>(&self, f: &mut fmt::Formatter<W>) -> fmt::Result {
        match self.spans.split_first() {
            None => Ok(()),
            Some((first, rest)) => {
                write!(f, " {first}")?;
                for span in rest {
                    write!(f, ",{span}")?;
                }
                Ok(())
            }
        }
    }
}
