//! A table and two histories that were worked by hand.

/// Two cores, a latency-critical task of one thread and a best-effort one of two.
pub const TABLE: &str = "\
cores = 2
bandwidth_limit = 1000

[[task]]
kind = \"lc\"
guaranteed = 1
limit = 1
delay = 10
request = 50

[[task]]
kind = \"be\"
guaranteed = 0
limit = 2
delay = 0
request = 0
";

/// Core 0 goes from thread 1 to thread 0, and core 1 to thread 2.
pub const HISTORY: &str = "\
caladan-history,2
pass,100,0
whole,0,1,0,0,0,0,0,0,0,0,0,0
whole,1,1,0,0,0,0,0,0,0,0,0,0
whole,2,1,0,0,0,0,0,0,0,0,0,0
grant,0,1,3
pass,110,0
whole,0,1,0,0,0,0,0,0,0,0,0,0
whole,1,1,0,0,0,0,0,0,0,0,0,0
whole,2,1,0,0,0,0,0,0,0,0,0,0
revoke,0,preempt,0
pass,120,0
whole,0,1,0,0,0,0,0,0,0,0,0,0
whole,1,1,0,0,0,0,0,0,0,0,0,0
whole,2,1,0,0,0,0,0,0,0,0,0,0
free,0
grant,0,0,1
grant,1,2,2
end,3
";

/// Core 0 is granted while it is held, freed in that pass, and revoked while it is free.
pub const DISORDERLY: &str = "\
caladan-history,2
pass,100,0
whole,0,1,0,0,0,0,0,0,0,0,0,0
whole,1,1,0,0,0,0,0,0,0,0,0,0
whole,2,1,0,0,0,0,0,0,0,0,0,0
grant,0,1,3
pass,110,0
whole,0,1,0,0,0,0,0,0,0,0,0,0
whole,1,1,0,0,0,0,0,0,0,0,0,0
whole,2,1,0,0,0,0,0,0,0,0,0,0
grant,0,2,2
free,0
pass,120,0
whole,0,1,0,0,0,0,0,0,0,0,0,0
whole,1,1,0,0,0,0,0,0,0,0,0,0
whole,2,1,0,0,0,0,0,0,0,0,0,0
revoke,0,bandwidth
end,3
";
