// Examples of the text, and drawn jobs turned both ways.
use crate::read::read;
use crate::write::write;
use jobs::item::Item;
use jobs::write::write_job;
use rules::gap::GapEntry;
use rules::table::TableEntry;
use std::alloc::Global;
use std::test::Fail;

// The bytes of the job that a text says.
fn bytes_of(heap: Global, text: &[u8]) -> Option<Vec<u8>> {
    match read(heap, text) {
        Ok(job) => write_job(heap, job.rows.as_slice(), job.items.as_slice()).ok(),
        Err(_) => None,
    }
}

// The text of a job, or the fault of its bytes.
fn text_of(heap: Global, job: &[u8]) -> Option<String> {
    match write(heap, job) {
        Ok(text) => Some(text),
        Err(fault) => fault.to_string(heap).ok(),
    }
}

// What is told of a text.
fn told(heap: Global, text: &[u8]) -> Option<String> {
    match read(heap, text) {
        Ok(_) => String::from_str(heap, "read").ok(),
        Err(fault) => fault.to_string(heap).ok(),
    }
}

// Two groups and a gap, as docs/JOB-FORMAT.md has them.
const SMALL: [u8; 29] = [
    1, 0, 0, 0, 0, 0, 0, 0, 3, 1, 0, 0, 0, 0, 0, 0, 0, 3, 2, 0, 0, 0, 1, 1, 0, 0, 2, 0, 1,
];

#[test]
fn small_job(rt: HostRuntime) -> Result<(), Fail> {
    let heap = rt.alloc();
    let text = "# two groups\n\n  group 1,0 \r\ngroup 0-1# and another\n gap  0 1  1";
    let job = bytes_of(heap, text.as_bytes()).ok_or("no job")?;
    assert_eq!(rt; job.as_slice(), SMALL.as_slice());
    let back = text_of(heap, SMALL.as_slice()).ok_or("no text")?;
    assert_eq!(rt; back.as_str(), "group 0-1\ngroup 0-1\ngap 0 1 1\n");
    Ok(())
}

#[test]
fn lists_and_tables(rt: HostRuntime) -> Result<(), Fail> {
    let heap = rt.alloc();
    for (text, want) in [
        ("group 7,5,0-2,1,63", "group 0-2,5,7,63\n"),
        ("group 0-63", "group 0-63\n"),
        ("group 007", "group 7\n"),
        (
            "group 3\ngroup 4\ntable 1 0\n 9: 1,0\n3:\n0:63",
            "group 3\ngroup 4\ntable 1 0\n0: 63\n9: 0-1\n",
        ),
        (
            "group 3\ngroup 4\ntable 0 1\ntable 0 1\n63:0-62\n",
            "group 3\ngroup 4\ntable 0 1\ntable 0 1\n63: 0-62\n",
        ),
        ("group", "refused 3 at 0"),
        ("gap 0 1 2", "refused 4 at 0"),
        ("group 1\ngap 0 0 2", "refused 5 at 9"),
        ("", "refused 6 at 0"),
    ] {
        let job = bytes_of(heap, text.as_bytes()).ok_or("no job")?;
        let back = text_of(heap, job.as_slice()).ok_or("no text")?;
        assert_eq!(rt; back.as_str(), want, "of {text}");
    }
    Ok(())
}

#[test]
fn faults(rt: HostRuntime) -> Result<(), Fail> {
    let heap = rt.alloc();
    for (text, want) in [
        (
            b"grup 3".as_slice(),
            "line 1: expected `group`, `gap`, `table` or a row, found `grup`",
        ),
        (
            b"group 1\n\ngroup 64".as_slice(),
            "line 3: expected a channel from 0 to 63, found `64`",
        ),
        (
            b"group 1,".as_slice(),
            "line 1: expected a channel from 0 to 63, found nothing",
        ),
        (
            b"group 1,+2".as_slice(),
            "line 1: expected a channel from 0 to 63, found `+2`",
        ),
        (
            b"group 5-3".as_slice(),
            "line 1: expected a range that does not go down, found `5-3`",
        ),
        (
            b"group 1, 2".as_slice(),
            "line 1: expected a channel from 0 to 63, found nothing",
        ),
        (
            b"group 1 2 3".as_slice(),
            "line 1: expected the end of the line, found `2`",
        ),
        (
            b"gap 0 65536 1".as_slice(),
            "line 1: expected a group from 0 to 65535, found `65536`",
        ),
        (
            b"gap 0 1".as_slice(),
            "line 1: expected a distance from 0 to 255, found nothing",
        ),
        (
            b"gap 0 1 256".as_slice(),
            "line 1: expected a distance from 0 to 255, found `256`",
        ),
        (
            b"table 0 x".as_slice(),
            "line 1: expected a group from 0 to 65535, found `x`",
        ),
        (
            b"table 0 1\n64: 1".as_slice(),
            "line 2: expected a channel from 0 to 63, found `64`",
        ),
        (
            b"3: 1".as_slice(),
            "line 1: expected a table before this row",
        ),
        (
            b"table 0 1\ngroup 1\n3: 1".as_slice(),
            "line 3: expected a table before this row",
        ),
        (
            b"table 0 1\n3: 1\n3:".as_slice(),
            "line 3: expected each row once, found row 3 again",
        ),
        (
            b"group 1\n\xff".as_slice(),
            "line 2: expected text in UTF-8",
        ),
        (
            b"group \x1b[2J".as_slice(),
            "line 1: expected a channel from 0 to 63, found `?[2J`",
        ),
    ] {
        let said = told(heap, text).ok_or("nothing is told")?;
        assert_eq!(rt; said.as_str(), want);
    }
    Ok(())
}

// Numbers drawn one after another.
#[derive(Drop)]
struct Draw(u64);

impl Draw {
    // Any number of 32 bits.
    fn any(&mut self) -> u64 {
        self.0 = self
            .0
            .wrapping_mul(6364136223846793005)
            .wrapping_add(1442695040888963407);
        self.0 >> 32
    }

    // A number below `n`, which is not 0.
    fn below(&mut self, n: u16) -> u16 {
        let drawn = self.any() % u64::from(n.max(1));
        u16::try_from(drawn).unwrap_or(0)
    }

    // A set: none, few, many or runs of channels.
    fn set(&mut self) -> u64 {
        let high = self.any();
        let low = self.any();
        let some = (high << 32) | low;
        match self.below(5) {
            0 => 0,
            1 => some & some.rotate_left(7) & some.rotate_left(19),
            2 => some,
            3 => u64::MAX >> (some % 64),
            _ => u64::MAX << (some % 64),
        }
    }
}

// A drawn rule between two of some groups.
fn draw_rule(draw: &mut Draw, rows: &mut Vec<u8>, groups: u16) -> Option<Item> {
    let first = draw.below(groups);
    let second = draw.below(groups);
    if first == second {
        return None;
    }
    if draw.below(3) > 0 {
        let gap = u8::try_from(draw.below(70)).unwrap_or(0);
        return Some(Item::Near(GapEntry { first, second, gap }));
    }
    let offset = u32::try_from(rows.len()).ok()?;
    for _ in 0..64 {
        rows.extend_from_slice(&draw.set().to_be_bytes()).ok()?;
    }
    Some(Item::Rows(TableEntry {
        first,
        second,
        offset,
    }))
}

// The bytes of a drawn job, whose rules stand among its groups.
fn draw_job(heap: Global, draw: &mut Draw) -> Option<Vec<u8>> {
    let mut items = Vec::new(heap);
    let mut rows = Vec::new(heap);
    for group in 0..draw.below(12).saturating_add(1) {
        let list = draw.set() | 1 << (draw.any() % 64);
        items.push(Item::Channels(list)).ok()?;
        if let Some(rule) = draw_rule(draw, &mut rows, group.saturating_add(1)) {
            items.push(rule).ok()?;
        }
    }
    write_job(heap, rows.as_slice(), items.as_slice()).ok()
}

#[test]
fn drawn_jobs(rt: HostRuntime) -> Result<(), Fail> {
    let heap = rt.alloc();
    let mut draw = Draw(1);
    for k in 0..200u32 {
        let job = draw_job(heap, &mut draw).ok_or("no job")?;
        let text = text_of(heap, job.as_slice()).ok_or("no text")?;
        let back = bytes_of(heap, text.as_bytes()).ok_or("no job back")?;
        assert_eq!(rt; back.as_slice(), job.as_slice(), "in job {k}: {text}");
        let again = text_of(heap, back.as_slice()).ok_or("no text back")?;
        assert_eq!(rt; again.as_str(), text.as_str(), "in job {k}");
    }
    Ok(())
}
