//! What a guard takes of a pass, group by group, is one pass.

ghost use Rattle.cal_guard.specs.Guarded.{GroupsMakeAPass};

/// After a permitted pass a group of actions may follow just where with them it is a permitted
/// pass. So what a guard took group by group, from no action on, is a permitted pass.
pub fn groups_make_a_pass()
    ensures { GroupsMakeAPass }
{}
