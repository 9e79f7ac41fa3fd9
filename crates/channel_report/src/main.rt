// The program: a job on standard input, the report of its search on standard output. Its options are in docs/REPORT.md.
#![tactic(auto)]

use programs::report::run;
use std::process::ExitCode;
use std::{env, io};

fn main(rt: HostRuntime) -> io::Result<ExitCode> {
    let mut words = Vec::new(rt.alloc());
    // The first word is the program's own name.
    for word in env::args(&rt)?.skip(1) {
        words.push(word)?;
    }
    run(
        rt.alloc(),
        words.as_slice(),
        &mut rt.stdin(),
        &mut rt.stdout(),
        &mut rt.stderr(),
    )
}
