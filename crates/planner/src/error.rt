// Why there is no answer: the job is refused, or memory is wanting.
ghost use Rattle.std.specs.Prelude.{◌≡◌, Some};
ghost use Rattle.jobs.specs.Numbers.{numbered};
ghost use Rattle.rules.specs.Refusals.{told};
ghost use Rattle.rules.specs.declared.refusal.Refusal.{Refusal};
ghost use Rattle.planner.specs.declared.error.PlanError.TheVariants.{Refused as refused_by, NoMemory};

use jobs::fault::LoadFault;
use rules::refusal::Refusal;
use search::held::OpenSearch;
use std::alloc::{AllocError, AllocFailed};
use std::fmt;

#[derive(Clone, Copy)]
pub enum PlanError {
    // The job is refused for its first fault; or, where it has none, the settings are.
    Refused(Refusal),
    // There is no memory for the regions or the answer.
    NoMemory,
}

// The conversions are by hand, since contracts read what `from_gives` says.
impl From<Refusal> for PlanError {
    ghost from_gives = { λ e r. r ≡ refused_by e };

    fn from(e: Refusal) -> PlanError {
        PlanError::Refused(e)
    }
}

impl From<LoadFault> for PlanError {
    ghost from_gives = { λ e r. (q : Refusal) × (r ≡ refused_by q) × (told q ≡ (numbered e.fault, e.offset)) };

    fn from(e: LoadFault) -> PlanError {
        PlanError::Refused(e.refusal())
    }
}

// A refused call gives up the search that it hands back.
impl From<(Refusal, OpenSearch)> for PlanError {
    ghost from_gives = { λ e r. r ≡ refused_by e.0 };

    fn from(e: (Refusal, OpenSearch)) -> PlanError {
        let (refusal, search) = e;
        let _ = search.leave();
        PlanError::Refused(refusal)
    }
}

// Two errors of the library, of an allocation and of one that hands back what it was to hold.
impl From<AllocError> for PlanError {
    ghost from_gives = { λ _ r. r ≡ NoMemory };

    fn from(_e: AllocError) -> PlanError {
        PlanError::NoMemory
    }
}

impl<T: Drop> From<AllocFailed<T>> for PlanError {
    ghost from_gives = { λ _ r. r ≡ NoMemory };

    fn from(_e: AllocFailed<T>) -> PlanError {
        PlanError::NoMemory
    }
}

impl fmt::Display for PlanError {
    ghost use Rattle.planner.specs.Accounts.{error_text};

    ghost output = { λ e. Some (error_text e) };

    fn fmt<W: fmt::Write>(&self, f: &mut fmt::Formatter<W>) -> fmt::Result {
        match *self {
            PlanError::Refused(refusal) => {
                let number = refusal.number();
                let place = refusal.place();
                write!(f, "refused {number} at {place}")
            }
            PlanError::NoMemory => write!(f, "no memory"),
        }
    }
}
