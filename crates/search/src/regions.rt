// The regions that a sitting is lent.
use propagation::records::{Assignment, RuleEnd};

// What a sitting works in, of any sizes, which it checks: the four regions of propagation, the branch, the plan and the base.
// (Their places are flat: of a struct in a struct the caller would not learn what its regions are left as.)
#[derive(Drop)]
pub struct Regions<'r> {
    pub domains: &'r mut [u64],
    pub marks: &'r mut [u32],
    pub ends: &'r mut [RuleEnd],
    pub settled: &'r mut [Assignment],
    pub branch: &'r mut [u32],
    pub plan: &'r mut [u8],
    pub base: &'r mut [u32],
}
