// The theorem on visits. The function's contract is the theorem; it computes nothing.
ghost use Rattle.visits.specs.Visits.{MadeOnce};

use branching::{Order, RestartPolicy};

// The visits of a list come to one end: what the list, the lists, the book and the sizes of the regions are decides the calls, the verdict and the counts.
pub fn visits_have_one_end<O: Order, P: RestartPolicy>()
    ensures { MadeOnce O.Order.meaning P.RestartPolicy.meaning O.Order.held P.RestartPolicy.held }
{}
