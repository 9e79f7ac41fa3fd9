// A solver that tries every channel of every group in turn. It shares no code with the search.
use crate::job::{Job, has};
use std::alloc::{AllocError, Global};

// Whether the channels so far can be gone on with for the groups that are left, with these lists.
fn complete(job: &Job, channels: &mut Vec<u8>, left: &[u64]) -> Result<bool, AllocError> {
    let Some((list, later)) = left.split_first() else {
        return Ok(true);
    };
    for channel in (0..64u8).filter(|c| has(*list, *c)) {
        channels.push(channel)?;
        if job.keeps_rules(channels) && complete(job, channels, later)? {
            return Ok(true);
        }
        let _ = channels.pop();
    }
    Ok(false)
}

// Whether the job has a plan.
pub fn has_plan(heap: Global, job: &Job) -> Result<bool, AllocError> {
    complete(job, &mut Vec::new(heap), &job.lists)
}
