// The account of a job: from the bytes on an input to the text on an output.
ghost use Rattle.std.specs.Prelude.{ℕ, List};
ghost use Rattle.programs.specs.Printed.{AccountOf, IsOn, Writes};

use crate::input::job;
use crate::output::{line, write};
use planner::solve::plan;
use std::alloc::Global;
use std::io;
use std::io::{Read, Write};

// Writes the account of the bytes that the input still has. An error is that of the input, of the output, or want of memory.
pub fn account<R: Read, W: Write>(heap: Global, input: &mut R, output: &mut W) -> io::Result<()>
    ensures { (bytes : List ℕ) × IsOn (R.remaining input.old) bytes × Writes (AccountOf bytes) (W.contents output.old) (W.contents output.new) result }
{
    let job = job(heap, input)?;
    let account = line(heap, plan(heap, job.as_slice()))?;
    write(output, account.as_bytes())
}
