// The theorems on runs of calls. Each function's contract is a theorem; the functions compute nothing.
#![tactic(auto)]

ghost use Rattle.laws.specs.Orders.{IsLawfulOrder, behaviour, IsLawfulPolicy, cutoffs};
ghost use Rattle.laws.specs.Statements.{SitsOnce, RemainsExists, SitsExists, SitsExistsOn, RightOn, FewestEverywhere, SitsReaches, SitsReachesOn, OpenSpends, PlansArePlans, RunsLawful, SittingContinues, RestartContinues, RefusedContinues, AcceptedStands, AcceptedContinues, BranchTested, BaseTested, FirstRefusal, LowestEmpty, Undisturbed};
ghost use Rattle.laws.specs.Jobs.{Jobs, SevenCalls};

use branching::{Order, RestartPolicy};

// The answers of an order of any make are lawful, whatever it holds when the call begins.
pub fn orders_behave<O: Order>()
    ensures { (h : O.Order.Held) → IsLawfulOrder (behaviour O.Order.meaning h) }
{}

// So are the cutoffs of a policy of any make.
pub fn policies_behave<P: RestartPolicy>()
    ensures { (h : P.RestartPolicy.Held) → IsLawfulPolicy (cutoffs P.RestartPolicy.meaning h) }
{}

// The same sitting comes to one verdict and one search.
pub fn a_sitting_has_one_end()
    ensures { SitsOnce }
{}

// It is a chain of the moves of `model`: by a lawful order on at most 200 groups, and on any number of groups by an order
// that is right on so many.
pub fn a_sitting_makes_moves()
    ensures on_at_most_200 { SitsReaches }
    ensures on_any_number { SitsReachesOn }
{}

// Where it ends open, it has made just the moves allowed.
pub fn an_open_sitting_spends_its_allowance()
    ensures { OpenSpends }
{}

// "plan" comes with a plan, from any state, whether a run came to it or not.
pub fn a_plan_needs_no_run()
    ensures { PlansArePlans }
{}

// The law, whole, of every run of calls.
pub fn runs_are_lawful()
    ensures { RunsLawful }
{}

// An accepted sitting carries every run on by this call, and the law holds of it.
pub fn a_sitting_carries_on()
    ensures { SittingContinues }
{}

// As it stands in a generic contract: an order and a policy of any make carry every run on, from whatever they hold.
pub fn any_make_carries_on<O: Order, P: RestartPolicy>()
    ensures { (h : O.Order.Held) (p : P.RestartPolicy.Held) → AcceptedContinues (behaviour O.Order.meaning h) (cutoffs P.RestartPolicy.meaning p) }
{}

// So does an accepted restart.
pub fn a_restart_carries_on()
    ensures { RestartContinues }
{}

// The test of a branch passes just where it is a branch.
pub fn branches_are_tested()
    ensures { BranchTested }
{}

// The words of a base are read as its nogoods, and the test of a base passes just where they are nogoods.
pub fn bases_are_tested()
    ensures { BaseTested }
{}

// The first check that fails decides.
pub fn the_first_fault_decides()
    ensures { FirstRefusal }
{}

// The place of an empty list is the lowest.
pub fn the_lowest_empty_list_is_told()
    ensures { LowestEmpty }
{}

// What a run leaves passes the tests.
pub fn runs_leave_sound_words()
    ensures { Undisturbed }
{}

// In every state something remains, the largest family.
pub fn what_remains_exists()
    ensures { RemainsExists }
{}

// Every sitting has an end: by a lawful order on at most 200 groups, and on any number of groups by an order that is right
// on so many, as one that is right everywhere is on any. Fewest first is such a one.
pub fn a_sitting_has_an_end()
    ensures on_at_most_200 { SitsExists }
    ensures on_any_number { SitsExistsOn }
    ensures right_on { RightOn }
    ensures fewest_first { FewestEverywhere }
{}

// Small jobs, worked through.
pub fn jobs_are_worked()
    ensures { Jobs }
{}

// So do a refused sitting and a refused restart.
pub fn a_refusal_carries_on()
    ensures { RefusedContinues }
{}

// What an accepted call is given stands for a state.
pub fn accepted_requests_stand()
    ensures { AcceptedStands }
{}

// There is a run with calls of every kind, which comes to a plan.
pub fn a_run_of_seven_calls()
    ensures { SevenCalls }
{}
