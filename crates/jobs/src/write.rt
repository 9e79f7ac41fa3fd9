// Writes the records of a job.
ghost use Rattle.std.specs.Prelude.{◌≡◌, ◌++◌, count_by, Some, None, MatchResult, OnOk};
ghost use Rattle.jobs.specs.declared.write.WriteFault.TheVariants.{NoMemory};
ghost use Rattle.jobs.specs.Writes.{RowsIn, flaw, Flawless, Unwritten, bytes, written, all_written, is_group, is_rule, job, RoundTrip};

use super::item::Item;
use super::record::Kind;
use std::alloc::{AllocError, Global};

// Why no job is written.
#[derive(Clone, Copy)]
pub enum WriteFault {
    // More items than an end record can count.
    TooMany,
    // The item at this place is an end: a job has one, after all its items.
    EndInside(usize),
    // The rows of the item at this place lie past the end of the bytes that they are taken from.
    NoRows(usize),
    // There is no memory for the bytes.
    NoMemory,
}

impl From<AllocError> for WriteFault {
    ghost from_gives = { λ _ f. f ≡ NoMemory };

    fn from(_e: AllocError) -> WriteFault {
        WriteFault::NoMemory
    }
}

// Adds two numbers, each with the high byte first.
fn write_pair(out: &mut Vec<u8>, first: u16, second: u16) -> Result<(), AllocError>
    ensures { OnOk result (out.new.items ≡ out.old.items ++ (bytes 2 first ++ bytes 2 second)) }
{
    out.extend_from_slice(&first.to_be_bytes())?;
    out.extend_from_slice(&second.to_be_bytes())
}

// Adds one record. The rows of a table are those at its offset in `src`.
fn write_item(out: &mut Vec<u8>, src: &[u8], item: Item) -> Result<(), AllocError>
    requires { RowsIn src.now item }
    ensures { OnOk result (out.new.items ≡ out.old.items ++ written src.now item) }
{
    match item {
        Item::Counts(groups, rules) => {
            out.push(Kind::End as u8)?;
            write_pair(out, groups, rules)
        }
        Item::Channels(list) => {
            out.push(Kind::Group as u8)?;
            out.extend_from_slice(&list.to_be_bytes())
        }
        Item::Near(e) => {
            out.push(Kind::Gap as u8)?;
            write_pair(out, e.first, e.second)?;
            out.push(e.gap)?;
            Ok(())
        }
        Item::Rows(e) => {
            let from = e.offset as usize;
            out.push(Kind::Table as u8)?;
            write_pair(out, e.first, e.second)?;
            out.extend_from_slice(&src[from..from + 512])?;
            Ok(())
        }
    }
}

// How many of the items are groups. (This and the next differ in a pattern, which is no argument.)
fn count_groups(items: &[Item]) -> usize
    ensures { result ≡ count_by is_group items.now }
{
    items
        .iter()
        .filter(|x| matches!(x, Item::Channels(_)))
        .count()
}

// How many of the items are rules.
fn count_rules(items: &[Item]) -> usize
    ensures { result ≡ count_by is_rule items.now }
{
    items
        .iter()
        .filter(|x| matches!(x, Item::Near(_) | Item::Rows(_)))
        .count()
}

// Adds the records of all items.
fn write_items(out: &mut Vec<u8>, src: &[u8], items: &[Item]) -> Result<(), AllocError>
    requires { Flawless src.now items.now }
    ensures { OnOk result (out.new.items ≡ out.old.items ++ all_written src.now items.now) }
{
    for x in items {
        write_item(out, src, *x)?;
    }
    Ok(())
}

// Adds the records of all items, and the end.
fn add_job(out: &mut Vec<u8>, src: &[u8], items: &[Item]) -> Result<(), AllocError>
    requires { Flawless src.now items.now }
    ensures { OnOk result (out.new.items ≡ out.old.items ++ job src.now items.now) }
{
    write_items(out, src, items)?;
    let groups = count_groups(items) as u16;
    let rules = count_rules(items) as u16;
    write_item(out, src, Item::Counts(groups, rules))
}

// Whether the item at place `at` can be written.
fn vet_item(src: &[u8], at: usize, item: Item) -> Result<(), WriteFault>
    ensures { MatchResult result (λ _. flaw src.now at item ≡ None) (λ f. flaw src.now at item ≡ Some f) }
{
    match item {
        Item::Counts(_, _) => Err(WriteFault::EndInside(at)),
        Item::Rows(e) if e.offset as usize + 512 > src.len() => Err(WriteFault::NoRows(at)),
        _ => Ok(()),
    }
}

// Whether all items can be written, or the first reason why not.
fn vet(src: &[u8], items: &[Item]) -> Result<(), WriteFault>
    ensures { MatchResult result (λ _. Flawless src.now items.now) (λ f. Unwritten src.now items.now f) }
{
    if items.len() > usize::from(u16::MAX) {
        return Err(WriteFault::TooMany);
    }
    for (k, x) in items.iter().enumerate() {
        vet_item(src, k, *x)?;
    }
    Ok(())
}

// The bytes of a job: a record for each item, in their order, and an end. The rows of a table are
// those at its offset in `src`. A load reads them back, where the items have no fault and there are places for them: `back` says so.
pub fn write_job(heap: Global, src: &[u8], items: &[Item]) -> Result<Vec<u8>, WriteFault>
    ensures bytes { MatchResult result (λ v. Flawless src.now items.now × (v.items ≡ job src.now items.now)) (λ f. Unwritten src.now items.now f) }
    ensures back { RoundTrip }
{
    vet(src, items)?;
    let mut out = Vec::new(heap);
    add_job(&mut out, src, items)?;
    Ok(out)
}
