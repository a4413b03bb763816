//! One look at each page.

ghost use Rattle.std.specs.Prelude.{◌≡◌, ◌≤◌, [], length};
ghost use Rattle.std.specs.Vec.{vec_capacity};
ghost use Rattle.cal_sched.specs.Looking.{HaveLooked};

use cal_signal::{Look, Observer};

/// Looks once at each page, in order, and puts what was found into an empty list that has room for
/// it.
pub(crate) fn look_at_each(observers: &mut [Observer], looks: &mut Vec<Look>)
    requires empty { looks.old.items ≡ [] }
    requires room { length observers.old ≤ vec_capacity looks.old }
    ensures looked { HaveLooked observers.old observers.new looks.new.items }
    ensures capacity { vec_capacity looks.new ≡ vec_capacity looks.old }
{
    for k in 0..observers.len() {
        let look = observers[k].observe();
        looks.push_reserved(look);
    }
}
