// The program: a job on standard input, its account on standard output.
#![tactic(auto)]

use programs::account::account;
use std::io;

fn main(rt: HostRuntime) -> io::Result<()> {
    account(rt.alloc(), &mut rt.stdin(), &mut rt.stdout())
}
