// The bytes of a job written as text.
ghost use Rattle.std.specs.Prelude.{◌≡◌, ◌≢◌, ℕ, ◌+◌, ◌*◌, ◌≤◌, ◌⊎◌, ◌++◌, List, length, None, codes, string_bytes, Some, OnOk, MatchOption, MatchResult};
ghost use Rattle.rules.specs.Tables.{number, row as row_at};
ghost use Rattle.jobs.specs.Records.{kind, unread, Shows, Sized};
ghost use Rattle.jobs.specs.Jobs.{Accepts};
ghost use Rattle.text.specs.declared.write.WriteFault.TheVariants.{Refused, NoMemory};
ghost use Rattle.jobs.specs.Jobs.{places};
ghost use Rattle.text.specs.Texts.{Adds, size_of, Unwritten, ListText, RowText, RowsText, head_text, TableText, RecordText, JobText};

use super::list::ChannelList;
use jobs::fault::LoadFault;
use jobs::load::load;
use jobs::record::{Record, read_record};
use rules::gap::GapEntry;
use rules::table::TableEntry;
use std::alloc::{AllocError, Global};
use std::fmt;

// Why no text is written.
#[derive(Clone, Copy)]
pub enum WriteFault {
    // The bytes are no job, for this fault.
    Refused(LoadFault),
    // There is no memory for the places of a load, or for the text.
    NoMemory,
}

// The conversions are by hand, since contracts read what `from_gives` says.
impl From<LoadFault> for WriteFault {
    ghost from_gives = { λ e f. f ≡ Refused e };

    fn from(e: LoadFault) -> WriteFault {
        WriteFault::Refused(e)
    }
}

impl From<AllocError> for WriteFault {
    ghost from_gives = { λ _ f. f ≡ NoMemory };

    fn from(_e: AllocError) -> WriteFault {
        WriteFault::NoMemory
    }
}

impl fmt::Display for WriteFault {
    ghost use Rattle.text.specs.Accounts.{write_fault_text};

    ghost output = { λ f. Some (write_fault_text f) };

    fn fmt<W: fmt::Write>(&self, f: &mut fmt::Formatter<W>) -> fmt::Result {
        match *self {
            WriteFault::Refused(fault) => {
                let number = fault.fault.number();
                let place = fault.offset;
                write!(f, "refused {number} at {place}")
            }
            WriteFault::NoMemory => write!(f, "no memory"),
        }
    }
}

// Whether the bytes are a job that a load takes.
fn check(heap: Global, job: &[u8]) -> Result<(), WriteFault>
    ensures { MatchResult result (λ _. (i : ℕ) × Accepts job.now places i) (λ f. Unwritten job.now f) }
{
    let mut lists = vec![in heap; 0u64; 200]?;
    let mut gaps = vec![in heap; GapEntry::default(); 4096]?;
    let mut tables = vec![in heap; TableEntry::default(); 4096]?;
    load(job, &mut lists, &mut gaps, &mut tables)?;
    Ok(())
}

// The two numbers at the front of a body.
fn pair(body: &[u8]) -> (u16, u16)
    requires { 4 ≤ length body.now }
    ensures { result ≡ (number body.now 0 2, number body.now 2 2) }
{
    (
        u16::from_be_bytes([body[0], body[1]]),
        u16::from_be_bytes([body[2], body[3]]),
    )
}

// The row of a channel in the body of a table.
fn row(body: &[u8], channel: u8) -> u64
    requires { 4 + 8 * channel + 8 ≤ length body.now }
    ensures { result ≡ row_at body.now 4 channel }
{
    let at = 4 + 8 * usize::from(channel);
    u64::from_be_bytes(body[at..at + 8].try_into().unwrap())
}

// Adds the line of a row, if the row has a channel.
fn write_row(heap: Global, out: &mut String, channel: u8, row: u64) -> Result<(), AllocError>
    ensures { OnOk result (Adds (RowText channel row) (string_bytes out.old) (string_bytes out.new)) }
{
    if row == 0 {
        return Ok(());
    }
    let list = ChannelList::new(heap, row)?;
    writeln!(out, "{channel}:{list}")
}

// Adds the lines of the rows of a table.
fn write_rows(heap: Global, out: &mut String, body: &[u8]) -> Result<(), AllocError>
    requires { 516 ≤ length body.now }
    ensures { OnOk result (Adds (RowsText body.now 4 64) (string_bytes out.old) (string_bytes out.new)) }
{
    for channel in 0..64u8 {
        write_row(heap, out, channel, row(body, channel))?;
    }
    Ok(())
}

// Adds the line of a group.
fn write_group(heap: Global, out: &mut String, set: u64) -> Result<(), AllocError>
    ensures { OnOk result ((l : List ℕ) × ListText set l × (string_bytes out.new ≡ string_bytes out.old ++ (codes "group" ++ (l ++ codes "\n")))) }
{
    let list = ChannelList::new(heap, set)?;
    writeln!(out, "group{list}")
}

// Adds the first line of a table.
fn write_head(out: &mut String, body: &[u8]) -> Result<(), AllocError>
    requires { 4 ≤ length body.now }
    ensures { OnOk result (string_bytes out.new ≡ string_bytes out.old ++ head_text body.now) }
{
    let (first, second) = pair(body);
    writeln!(out, "table {first} {second}")
}

// Adds the lines of a table.
fn write_table(heap: Global, out: &mut String, body: &[u8]) -> Result<(), AllocError>
    requires { 516 ≤ length body.now }
    ensures { OnOk result (Adds (TableText body.now) (string_bytes out.old) (string_bytes out.new)) }
{
    write_head(out, body)?;
    write_rows(heap, out, body)?;
    Ok(())
}

// Adds the lines of a record.
fn write_record(heap: Global, out: &mut String, read: Record<'_>) -> Result<(), AllocError>
    requires { Sized read }
    ensures { OnOk result (Adds (RecordText read.entry) (string_bytes out.old) (string_bytes out.new)) }
{
    match read {
        Record::End(_) => Ok(()),
        Record::Group(body) => write_group(heap, out, u64::from_be_bytes(*body)),
        Record::Gap(body) => {
            let (first, second) = pair(body);
            let gap = body[4];
            writeln!(out, "gap {first} {second} {gap}")
        }
        Record::Table(body) => write_table(heap, out, body),
    }
}

// How many bytes a record takes, with its byte of kind.
fn size(read: Record<'_>) -> usize
    ensures { result ≡ size_of read.entry }
{
    match read {
        Record::End(_) => 5,
        Record::Group(_) => 9,
        Record::Gap(_) => 6,
        Record::Table(_) => 517,
    }
}

// The record at a place, if it is there and no end.
fn next_record(job: &[u8], at: usize) -> Option<Record<'_>>
    ensures { MatchOption result ((unread job.now at ≡ None → ⊥) ⊎ (kind job.now at ≡ 0)) (λ x. (unread job.now at ≡ None) × Shows x job.now at × Sized x × (kind job.now at ≢ 0)) }
{
    match read_record(job, at) {
        Ok(Record::End(_)) | Err(_) => None,
        Ok(record) => Some(record),
    }
}

// Adds the lines of all records before the end.
fn write_records(heap: Global, out: &mut String, job: &[u8]) -> Result<(), AllocError>
    requires { (i : ℕ) × Accepts job.now places i }
    ensures { OnOk result (Adds (JobText job.now) (string_bytes out.old) (string_bytes out.new)) }
{
    let mut at = 0;
    while let Some(record) = next_record(job, at) {
        write_record(heap, out, record)?;
        at += size(record);
    }
    Ok(())
}

// The text of a job, a line for each group and rule and for each row that is not empty, in the order of the
// records; or the fault that a load finds in the bytes.
pub fn write(heap: Global, job: &[u8]) -> Result<String, WriteFault>
    ensures { MatchResult result (λ s. JobText job.now (string_bytes s)) (λ f. Unwritten job.now f) }
{
    check(heap, job)?;
    let mut out = String::new(heap);
    write_records(heap, &mut out, job)?;
    Ok(out)
}
