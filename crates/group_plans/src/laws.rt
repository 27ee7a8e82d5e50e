//! When a group takes place, and what its plan comes to: each function's contract is a law, and its body does nothing.

ghost use Rattle.group_plans.specs.Laws.{AllowedOpsTakePlace, EstimatesAdd, GroupsLeaveObjects, PlansFitEstimates, PlansMakeTrees, ShortPlansLackBlocks};

/// Allowed operations that lead from contents to others take place, on a tree that has the lengths before them.
pub fn allowed_ops_take_place()
    ensures { AllowedOpsTakePlace }
{}

/// What they leave are the objects with their changes laid over them. So a plan of these is one of what they leave.
pub fn groups_leave_objects()
    ensures { GroupsLeaveObjects }
{}

/// If the operations of a group take place, the blocks of its plan make the tree of what they leave.
pub fn plans_make_trees()
    ensures { PlansMakeTrees }
{}

/// The blocks of the plan are no more than the operations are estimated at.
pub fn plans_fit_estimates()
    ensures { PlansFitEstimates }
{}

/// A plan is short of blocks only if fewer are free than its operations are estimated at.
pub fn short_plans_lack_blocks()
    ensures { ShortPlansLackBlocks }
{}

/// If all records are of one group, its operations are estimated at the sum of what theirs are.
pub fn estimates_add()
    ensures { EstimatesAdd }
{}
