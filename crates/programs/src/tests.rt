// What no contract says: that a call succeeds, that the error of an input or an output comes back, and texts that are known by hand.
use crate::account::account;
use crate::report::run;
use std::alloc::{AllocError, Global};
use std::io;
use std::io::{ErrorKind, Read, Write};
use std::process::ExitCode;
use std::test::Fail;

// Two groups that may have channels 0 and 1, and must not have the same.
const SMALL: [u8; 29] = [
    1, 0, 0, 0, 0, 0, 0, 0, 3, 1, 0, 0, 0, 0, 0, 0, 0, 3, 2, 0, 0, 0, 1, 1, 0, 0, 2, 0, 1,
];

const ACCOUNT: &str = "group 0 channel 0\ngroup 1 channel 1\nmoves 1 closings 0 restarts 0\n";

// Five groups that may have channels 0 to 3, and no two the same one.
fn crowd(heap: Global) -> Result<Vec<u8>, AllocError> {
    let mut job = Vec::new(heap);
    for _ in 0..5 {
        job.extend_from_slice(&[1, 0, 0, 0, 0, 0, 0, 0, 15])?;
    }
    for first in 0..5u8 {
        for second in first + 1..5 {
            job.extend_from_slice(&[2, 0, first, 0, second, 1])?;
        }
    }
    job.extend_from_slice(&[0, 0, 5, 0, 10])?;
    Ok(job)
}

// The small job with its gap 148 times over, and with 125 tables that permit all: 2 x 9 + 148 x 6 + 125 x 517 + 5 bytes.
fn longest(heap: Global) -> Result<Vec<u8>, AllocError> {
    let mut job = Vec::new(heap);
    for _ in 0..2 {
        job.extend_from_slice(&[1, 0, 0, 0, 0, 0, 0, 0, 3])?;
    }
    for _ in 0..148 {
        job.extend_from_slice(&[2, 0, 0, 0, 1, 1])?;
    }
    for _ in 0..125 {
        job.extend_from_slice(&[3, 0, 0, 0, 1])?;
        job.extend_from_slice(&[255; 512])?;
    }
    job.extend_from_slice(&[0, 0, 2, 1, 17])?;
    Ok(job)
}

#[test]
fn longest_input(rt: HostRuntime) -> Result<(), Fail> {
    let heap = rt.alloc();
    let mut job = longest(heap)?;
    assert_eq!(rt; job.len(), 65_536);
    let mut output = Vec::new(heap);
    account(heap, &mut job.as_slice(), &mut output)?;
    assert_eq!(rt; output.as_slice(), ACCOUNT.as_bytes());
    job.push(0)?;
    output.clear();
    account(heap, &mut job.as_slice(), &mut output)?;
    assert_eq!(rt; output.as_slice(), b"refused 8 at 65536\n".as_slice());
    Ok(())
}

#[test]
fn refused_job(rt: HostRuntime) -> Result<(), Fail> {
    let heap = rt.alloc();
    // The gap at 18 is cut off.
    let mut input = &SMALL[..20];
    let mut account_output = Vec::new(heap);
    account(heap, &mut input, &mut account_output)?;
    assert_eq!(rt; account_output.as_slice(), b"refused 1 at 18\n".as_slice());
    let mut report_output = Vec::new(heap);
    let mut errors = Vec::new(heap);
    let ended = run(
        heap,
        &[],
        &mut &SMALL[..20],
        &mut report_output,
        &mut errors,
    )?;
    assert!(rt; ended == ExitCode::SUCCESS);
    assert_eq!(rt; report_output.as_slice(), b"refused 1 at 18\n".as_slice());
    assert_eq!(rt; errors.len(), 0);
    Ok(())
}

// An input that gives these bytes, and then fails.
#[derive(Drop)]
struct Cut<'a>(&'a [u8]);

impl Read for Cut<'_> {
    fn read(&mut self, buf: &mut [u8]) -> io::Result<usize> {
        match self.0.read(buf)? {
            0 => Err(ErrorKind::ConnectionReset.into()),
            n => Ok(n),
        }
    }
}

// An output that takes one byte with every second call, and fails once it has so many.
#[derive(Drop)]
struct Narrow {
    taken: Vec<u8>,
    room: usize,
    interrupted: bool,
}

impl Write for Narrow {
    fn write(&mut self, buf: &[u8]) -> io::Result<usize> {
        self.interrupted = !self.interrupted;
        if self.interrupted {
            return Err(ErrorKind::Interrupted.into());
        }
        if self.taken.len() == self.room {
            return Err(ErrorKind::StorageFull.into());
        }
        match buf.first() {
            Some(byte) => {
                self.taken.push(*byte)?;
                Ok(1)
            }
            None => Ok(0),
        }
    }

    fn flush(&mut self) -> io::Result<()> {
        Ok(())
    }
}

#[test]
fn input_fails(rt: HostRuntime) -> Result<(), Fail> {
    let heap = rt.alloc();
    let mut output = Vec::new(heap);
    for job in [&SMALL[..20], &SMALL] {
        let answer = account(heap, &mut Cut(job), &mut output);
        assert_eq!(rt;
            answer.map_err(|error| error.kind()),
            Err(ErrorKind::ConnectionReset)
        );
        assert_eq!(rt; output.len(), 0);
    }
    Ok(())
}

#[test]
fn output_fails(rt: HostRuntime) -> Result<(), Fail> {
    let heap = rt.alloc();
    for (room, want, text) in [
        (10, Err(ErrorKind::StorageFull), "group 0 ch"),
        (66, Ok(()), ACCOUNT),
    ] {
        let mut output = Narrow {
            taken: Vec::new(heap),
            room,
            interrupted: false,
        };
        let answer = account(heap, &mut SMALL.as_slice(), &mut output);
        assert_eq!(rt; answer.map_err(|error| error.kind()), want);
        assert_eq!(rt; output.taken.as_slice(), text.as_bytes());
    }
    Ok(())
}

// The report that docs/REPORT.md has.
const REPORT: &str = "none
moves 62 closings 23 restarts 10
none: nothing is taken and some group keeps nothing of its list
closed: group 0 channel 0, group 1 channel 1
closed: group 2 channel 0, group 0 channel 1
closed: group 1 channel 0, group 0 channel 1
closed: group 2 channel 0, group 0 channel 2
closed: group 1 channel 0, group 0 channel 2
closed: group 2 channel 0
closed: group 1 channel 0
closed: group 2 channel 1, group 1 channel 2
closed: group 0 channel 0
closed: group 2 channel 1
closed: group 2 channel 2
closed: group 0 channel 1
refused: group 0 channel 1
";

// What its page has of the same job after ten moves.
const OPEN: &str = "open
moves 10 closings 3 restarts 1
closed: group 0 channel 0, group 1 channel 1
closed: group 2 channel 0, group 0 channel 1, group 1 channel 2
taken: group 2 channel 0
taken: group 0 channel 1
refused: group 1 channel 2
";

#[test]
fn words_and_reports(rt: HostRuntime) -> Result<(), Fail> {
    let heap = rt.alloc();
    let job = crowd(heap)?;
    for (line, status, report, told) in [
        ("--policy steady:2", 0, REPORT, ""),
        ("--policy steady:2 --sittings 1 --moves 10", 0, OPEN, ""),
        (
            "--moves 0",
            2,
            "",
            "--moves wants a number from 1 to 1000000\n",
        ),
        ("--moves 1 --order", 2, "", "the last option has no value\n"),
    ] {
        let mut words = Vec::new(heap);
        for word in line.split(' ') {
            words.push(String::from_str(heap, word)?)?;
        }
        let mut input = job.as_slice();
        let mut output = Vec::new(heap);
        let mut errors = Vec::new(heap);
        let ended = run(heap, &words, &mut input, &mut output, &mut errors)?;
        assert!(rt; ended == ExitCode::from(status), "{line}");
        assert_eq!(rt; output.as_slice(), report.as_bytes(), "{line}");
        assert_eq!(rt; errors.as_slice(), told.as_bytes(), "{line}");
    }
    Ok(())
}
