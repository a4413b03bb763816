//! What the tests give to the program, and what it writes of it.

/// Two cores and one latency-critical task of one thread; and one pass, whose look shows a delay of
/// 11.
pub const INPUT: &str = "\
cores = 2
bandwidth_limit = 1000

[[task]]
kind = \"lc\"
guaranteed = 1
limit = 1
delay = 10
request = 50
---
caladan-signals,1
pass,111,0
whole,0,1,1,0,0,1,100,0,0,105
end,1
";

/// What the program writes of it.
pub const REPORT: &str = "\
pass 0 now 111 bandwidth 0
  grant core 0 to thread 0 class 3
end 1 passes
task 0 lc held 1 leaving 0
";
