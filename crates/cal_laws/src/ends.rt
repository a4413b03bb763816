//! What is so at every point, said of whole histories.

ghost use Rattle.cal_laws.specs.Ends.{EndsArePoints};

/// A legal history that is not empty ends at a point of it: there all its actions are made, and
/// none comes next. So each law of points is one of what stands between passes.
pub fn ends_are_points()
    ensures { EndsArePoints }
{}
