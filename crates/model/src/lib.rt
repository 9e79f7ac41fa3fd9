// The theorems on runs of the search. Each function's contract is one theorem of specs/Statements.antt; the functions of this file compute nothing.
#![tactic(auto)]

pub mod base;
pub mod decision;

ghost use Rattle.model.specs.Statements.{Formed, BranchBounded, StaysShut, Sound, NoneSound, PlanSound, ClosingsBounded, MovesBounded, ReducedExample, RemainsOne, RemainsExists, MeetsUnion, BaseRead};

// On every run the branch has listed assignments, none twice and none of a group taken before, and the base has nogoods.
pub fn branch_and_base_are_formed()
    ensures { Formed }
{}

// The branch has at most 64 decisions a group.
pub fn branch_is_bounded()
    ensures { BranchBounded }
{}

// What is shut out stays shut out.
pub fn shut_out_stays()
    ensures { StaysShut }
{}

// Every complete choice that is shut out breaks a rule.
pub fn shut_out_breaks_a_rule()
    ensures { Sound }
{}

// "none" comes only where there is no plan.
pub fn none_means_no_plan()
    ensures { NoneSound }
{}

// Where every group keeps one channel, these are a plan, in any state.
pub fn plan_is_a_plan()
    ensures { PlanSound }
{}

// There are fewer closings than choices.
pub fn closings_are_bounded()
    ensures { ClosingsBounded }
{}

// Moves are bounded by closings.
pub fn moves_are_bounded()
    ensures { MovesBounded }
{}

// The reduced nogoods of a branch, and their words.
pub fn nogoods_are_reduced()
    ensures { ReducedExample }
{}

// What remains is one family.
pub fn what_remains_is_one()
    ensures { RemainsOne }
{}

// There is a family that remains.
pub fn what_remains_exists()
    ensures { RemainsExists }
{}

// Two families that meet the conditions do so together.
pub fn conditions_are_closed_under_union()
    ensures { MeetsUnion }
{}

// The words of recorded nogoods are read as these nogoods.
pub fn base_is_read()
    ensures { BaseRead }
{}
