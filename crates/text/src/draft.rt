// A job in the making: its items, and the rows of its tables.
ghost use Rattle.std.specs.Prelude.{◌≡◌, ◌*◌, ◌≤◌, None, true, vec_len};
ghost use Rattle.std.specs.Option.{ForSome};

use super::fault::Wrong;
use super::line::Line;
use jobs::item::Item;
use rules::channels::has_channel;
use rules::table::TableEntry;
use std::alloc::Global;

// The most items of a job: an end record counts no more.
const ITEMS: usize = 65_535;

// How many bytes the rows of a table take.
const ROWS: usize = 512;

#[derive(Drop)]
pub struct Draft {
    // What the records say, in their order.
    pub items: Vec<Item>,
    // The rows of the tables, each at its item's offset.
    pub rows: Vec<u8>,
    // The rows that the last item was given so far, where it is a table.
    pub given: Option<u64>,
    pub ghost room: { vec_len rows ≤ 512 * vec_len items },
    pub ghost few: { vec_len items ≤ 65535 },
    pub ghost table: { ForSome given (λ _. 512 ≤ vec_len rows) },
}

impl Draft {
    // These name the struct itself, so they are brought in here and not above it.
    ghost use Rattle.text.specs.Drafts.{made, nothing, full, with_item, Tried, Adding};

    // Of no item.
    pub fn new(heap: Global) -> Draft
        ensures { made result ≡ nothing }
    {
        Draft {
            items: Vec::new(heap),
            rows: Vec::new(heap),
            given: None,
        }
    }

    // Adds an item.
    fn add_item(&mut self, item: Item) -> Result<(), Wrong<'static>>
        ensures { Tried true (full (made self.old)) (made self.old) (with_item (made self.old) item self.old.given) result (made self.new) }
    {
        if self.items.len() >= ITEMS {
            return Err(Wrong::TooMany);
        }
        self.items.push(item)?;
        Ok(())
    }

    // Adds a group or a gap.
    fn add_plain(&mut self, item: Item) -> Result<(), Wrong<'static>>
        ensures { Tried true (full (made self.old)) (made self.old) (with_item (made self.old) item None) result (made self.new) }
    {
        self.add_item(item)?;
        self.given = None;
        Ok(())
    }

    // Adds a table of no pairs.
    fn add_table(&mut self, first: u16, second: u16) -> Result<(), Wrong<'static>>
        ensures { Adding (made self.old) (Line.Table first second) result (made self.new) }
    {
        let offset = self.rows.len() as u32;
        self.add_item(Item::Rows(TableEntry {
            first,
            second,
            offset,
        }))?;
        self.rows.extend_from_slice(&[0; ROWS])?;
        self.given = Some(0);
        Ok(())
    }

    // Gives the last table the row of a channel.
    fn add_row(&mut self, channel: u8, list: u64) -> Result<(), Wrong<'static>>
        ensures { Adding (made self.old) (Line.Row channel list) result (made self.new) }
    {
        let Some(given) = self.given else {
            return Err(Wrong::NoTable);
        };
        if channel >= 64 || has_channel(given, channel) {
            return Err(Wrong::SecondRow(channel));
        }
        let from = self.rows.len() - ROWS + 8 * usize::from(channel);
        self.rows[from..from + 8].copy_from_slice(&list.to_be_bytes());
        self.given = Some(given | (1 << channel));
        Ok(())
    }

    // Adds what a line says.
    pub fn add(&mut self, line: Line) -> Result<(), Wrong<'static>>
        ensures { Adding (made self.old) line result (made self.new) }
    {
        match line {
            Line::Blank => Ok(()),
            Line::Group(list) => self.add_plain(Item::Channels(list)),
            Line::Gap(entry) => self.add_plain(Item::Near(entry)),
            Line::Table(first, second) => self.add_table(first, second),
            Line::Row(channel, list) => self.add_row(channel, list),
        }
    }
}
