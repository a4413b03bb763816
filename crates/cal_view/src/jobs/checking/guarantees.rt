//! Which task may have to wait for the cores that it is guaranteed, and for whom.

ghost use Rattle.std.specs.Prelude.{◌≡◌, ◌<◌, IfSome, length};
ghost use Rattle.cal_view.specs.Guarantees as guarantees;

use cal_machine::Config;

/// The least task of a lower number for which this one may have to wait.
pub fn least_before(config: &Config, t: usize) -> Option<usize>
    requires { t < length config.now.tasks }
    ensures least { result ≡ guarantees.least_before config.now t }
    ensures before { IfSome result (λ u. u < t) }
{
    for u in 0..t {
        if waits_behind(config, t, u) {
            return Some(u);
        }
    }
    None
}

/// Whether a task is guaranteed cores, and this latency-critical one may have more than it is
/// guaranteed.
fn waits_behind(config: &Config, t: usize, u: usize) -> bool
    requires task { t < length config.now.tasks }
    requires other { u < length config.now.tasks }
    ensures { result ≡ guarantees.waits_behind config.now t u }
{
    let before = config.task(u);
    0 < config.task(t).guaranteed
        && config.is_latency_critical(u)
        && before.guaranteed < before.limit
}
