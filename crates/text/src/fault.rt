// Why a text is no job: the line, and what is wrong there.
ghost use Rattle.std.specs.Prelude.{◌≡◌, Some};
ghost use Rattle.std.specs.Fmt.{DisplaysOnOk};
ghost use Rattle.text.specs.declared.fault.Wrong.TheVariants.{Lacks, NoMemory};
ghost use Rattle.text.specs.Accounts.{shown_text};

use std::alloc::{AllocError, AllocFailed};
use std::fmt;

// What a line should have where something else stands.
#[derive(Clone, Copy, PartialEq, Eq, Debug)]
pub enum Expected {
    // The first word of an item.
    Item,
    // A group, from 0 to 65535.
    Group,
    // A distance, from 0 to 255.
    Distance,
    // A channel, from 0 to 63.
    Channel,
    // A range whose last channel is not below its first.
    RisingRange,
    // The end of the line.
    End,
}

// What a line misses: what is expected, and what stands there; the text is empty where nothing does.
#[derive(Clone, Copy)]
pub struct Lack<'t> {
    pub expected: Expected,
    pub found: &'t str,
}

// What is wrong with a line.
#[derive(Clone, Copy)]
pub enum Wrong<'t> {
    // It says no item.
    Lacks(Lack<'t>),
    // A row stands before any table, or behind a group or a gap.
    NoTable,
    // The table has the row of this channel already.
    SecondRow(u8),
    // The line is no UTF-8.
    NotText,
    // It is item 65,536.
    TooMany,
    // There is no memory for what it says.
    NoMemory,
}

// The first line at which a text is no job, counted from 1.
#[derive(Clone, Copy)]
pub struct TextFault<'t> {
    pub line: usize,
    pub wrong: Wrong<'t>,
}

// The conversions are by hand, since contracts read what `from_gives` says.
impl<'t> From<Lack<'t>> for Wrong<'t> {
    ghost from_gives = { λ e w. w ≡ Lacks e };

    fn from(e: Lack<'t>) -> Wrong<'t> {
        Wrong::Lacks(e)
    }
}

impl<'t> From<AllocError> for Wrong<'t> {
    ghost from_gives = { λ _ w. w ≡ NoMemory };

    fn from(_e: AllocError) -> Wrong<'t> {
        Wrong::NoMemory
    }
}

impl<'t, T: Drop> From<AllocFailed<T>> for Wrong<'t> {
    ghost from_gives = { λ _ w. w ≡ NoMemory };

    fn from(_e: AllocFailed<T>) -> Wrong<'t> {
        Wrong::NoMemory
    }
}

impl fmt::Display for Expected {
    ghost use Rattle.text.specs.Accounts.{expected_text};

    ghost output = { λ e. Some (expected_text e) };

    fn fmt<W: fmt::Write>(&self, f: &mut fmt::Formatter<W>) -> fmt::Result {
        match self {
            Expected::Item => write!(f, "`group`, `gap`, `table` or a row"),
            Expected::Group => write!(f, "a group from 0 to 65535"),
            Expected::Distance => write!(f, "a distance from 0 to 255"),
            Expected::Channel => write!(f, "a channel from 0 to 63"),
            Expected::RisingRange => write!(f, "a range that does not go down"),
            Expected::End => write!(f, "the end of the line"),
        }
    }
}

// Writes the front of a text, as far as one line of an account takes it.
fn show<W: fmt::Write>(text: &str, f: &mut fmt::Formatter<W>) -> fmt::Result
    ensures { DisplaysOnOk W.write_str_gives f.old result (Some (shown_text text.now)) f.new }
{
    for c in text.chars().take(40) {
        let shown = if c.is_control() { '?' } else { c };
        write!(f, "{shown}")?;
    }
    Ok(())
}

// The front of what a line has.
#[derive(Clone, Copy)]
struct Shown<'t>(&'t str);

impl<'t> fmt::Display for Shown<'t> {
    ghost output = { λ s. Some (shown_text s.0.now) };

    fn fmt<W: fmt::Write>(&self, f: &mut fmt::Formatter<W>) -> fmt::Result {
        show(self.0, f)
    }
}

impl<'t> fmt::Display for Lack<'t> {
    ghost use Rattle.text.specs.Accounts.{lack_text};

    ghost output = { λ l. Some (lack_text l) };

    fn fmt<W: fmt::Write>(&self, f: &mut fmt::Formatter<W>) -> fmt::Result {
        let expected = self.expected;
        if self.found.is_empty() {
            write!(f, "expected {expected}, found nothing")
        } else {
            let shown = Shown(self.found);
            write!(f, "expected {expected}, found `{shown}`")
        }
    }
}

impl<'t> fmt::Display for Wrong<'t> {
    ghost use Rattle.text.specs.Accounts.{wrong_text};

    ghost output = { λ w. Some (wrong_text w) };

    fn fmt<W: fmt::Write>(&self, f: &mut fmt::Formatter<W>) -> fmt::Result {
        match *self {
            Wrong::Lacks(lack) => write!(f, "{lack}"),
            Wrong::NoTable => write!(f, "expected a table before this row"),
            Wrong::SecondRow(channel) => {
                write!(f, "expected each row once, found row {channel} again")
            }
            Wrong::NotText => write!(f, "expected text in UTF-8"),
            Wrong::TooMany => write!(f, "expected no more than 65535 items"),
            Wrong::NoMemory => write!(f, "no memory"),
        }
    }
}

impl<'t> fmt::Display for TextFault<'t> {
    ghost use Rattle.text.specs.Accounts.{text_fault_text};

    ghost output = { λ f. Some (text_fault_text f) };

    fn fmt<W: fmt::Write>(&self, f: &mut fmt::Formatter<W>) -> fmt::Result {
        let line = self.line;
        let wrong = self.wrong;
        write!(f, "line {line}: {wrong}")
    }
}
