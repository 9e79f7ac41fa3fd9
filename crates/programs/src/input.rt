// The bytes of a job on an input.
ghost use Rattle.std.specs.Prelude.{◌≡◌, IfSome, IfOk, take, vec_items};

use planner::solve::LONGEST_JOB;
use std::alloc::Global;
use std::io;
use std::io::Read;

// All bytes that the input still has; of more than the longest job may have, one more than that.
pub(crate) fn job<R: Read>(heap: Global, input: &mut R) -> io::Result<Vec<u8>>
    ensures { IfOk result (λ job. IfSome (R.remaining input.old) (λ bytes. vec_items job ≡ take 65537 bytes)) }
{
    let mut job = Vec::new(heap);
    // One byte more than the longest job shows that the input is longer.
    let mut longest = input.take(LONGEST_JOB as u64 + 1);
    longest.read_to_end(&mut job)?;
    Ok(job)
}
