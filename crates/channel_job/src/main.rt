// The program: `channel_job bytes` turns the text of a job into its bytes, `channel_job text` its bytes into text.
#![tactic(auto)]

use jobs::write::write_job;
use std::io::{Read, Write};
use std::process::ExitCode;
use std::{env, io};
use text::read::read;
use text::write::write;

// Writes the bytes of the job whose text is read.
fn to_bytes(rt: &HostRuntime, input: &[u8]) -> io::Result<ExitCode> {
    let job = match read(rt.alloc(), input) {
        Ok(job) => job,
        Err(fault) => {
            eprintln!(rt; "{fault}")?;
            return Ok(ExitCode::FAILURE);
        }
    };
    match write_job(rt.alloc(), job.rows.as_slice(), job.items.as_slice()) {
        Ok(bytes) => {
            rt.stdout().write_all(bytes.as_slice())?;
            Ok(ExitCode::SUCCESS)
        }
        Err(_) => {
            eprintln!(rt; "no memory")?;
            Ok(ExitCode::FAILURE)
        }
    }
}

// Writes the text of the job whose bytes are read.
fn to_text(rt: &HostRuntime, input: &[u8]) -> io::Result<ExitCode> {
    match write(rt.alloc(), input) {
        Ok(text) => {
            print!(rt; "{text}")?;
            Ok(ExitCode::SUCCESS)
        }
        Err(fault) => {
            eprintln!(rt; "{fault}")?;
            Ok(ExitCode::FAILURE)
        }
    }
}

// Which way a job is turned.
#[derive(Clone, Copy)]
enum Way {
    ToBytes,
    ToText,
}

// The way that the one argument names.
fn chosen_way(rt: &HostRuntime) -> io::Result<Option<Way>> {
    let mut arguments = env::args(rt)?.skip(1);
    let Some(word) = arguments.next() else {
        return Ok(None);
    };
    if arguments.next().is_some() {
        return Ok(None);
    }
    Ok(match word.as_str() {
        "bytes" => Some(Way::ToBytes),
        "text" => Some(Way::ToText),
        _ => None,
    })
}

// All of the standard input.
fn input(rt: &HostRuntime) -> io::Result<Vec<u8>> {
    let mut bytes = Vec::new(rt.alloc());
    rt.stdin().read_to_end(&mut bytes)?;
    Ok(bytes)
}

fn main(rt: HostRuntime) -> io::Result<ExitCode> {
    match chosen_way(&rt)? {
        Some(Way::ToBytes) => to_bytes(&rt, input(&rt)?.as_slice()),
        Some(Way::ToText) => to_text(&rt, input(&rt)?.as_slice()),
        None => {
            eprintln!(rt;
                "usage: channel_job bytes < TEXT > JOB, or channel_job text < JOB > TEXT"
            )?;
            Ok(ExitCode::from(2))
        }
    }
}
