//! Why each cap of a best-effort task is set.

ghost use Rattle.cal_laws.specs.Caps.{CapsAreDue};

use cal_policy::laws::{legal_is_sound, victim_has_most_misses};

/// A cap is set only for one of two reasons. Over the bandwidth limit it is one below the cores
/// that the task holds, and no candidate has had more misses since the pass before, none with as
/// many has a lesser number. Else it is one above the task's last cap, and the task is the first of
/// the best-effort ones whose cap is below their limit. (After Caladan's bandwidth controller; the
/// exact rule is Doranjei's.)
pub fn caps_are_due()
    ensures { CapsAreDue }
{
    legal_is_sound();
    victim_has_most_misses();
}
