// The theorems on answers. Each function's contract is a theorem; the functions compute nothing.
ghost use Rattle.planner.specs.Sittings.{RanOnce};
ghost use Rattle.planner.specs.Answers.{AnsweredOnce};

use branching::{Order, RestartPolicy};

// The same sittings come to one end.
pub fn sittings_have_one_end<O: Order, P: RestartPolicy>()
    ensures { RanOnce O.Order.meaning P.RestartPolicy.meaning }
{}

// So two replies to one job, by the same settings, order and policy, say the same, unless memory is wanting.
pub fn a_job_decides_its_answer<O: Order, P: RestartPolicy>()
    ensures { AnsweredOnce O.Order.meaning P.RestartPolicy.meaning }
{}
