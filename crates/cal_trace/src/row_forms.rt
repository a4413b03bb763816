//! The rows that a file may have after its header, a line each: the word of the row, and then what
//! its fields are. A revocation's third field is its cause.

/// The rows of a file of signals. In version 1 a record lacks `paused` and `since`.
pub const SIGNAL_ROWS: &str = "\
pass,now,bandwidth
whole,thread,room,number,taken,running,queued,oldest,started,misses,stamp,paused,since
busy,thread,room,first,second
end,passes";

/// The rows of a file of arrivals.
pub const ARRIVAL_ROWS: &str = "\
pass,now,bandwidth
turn,now
request,thread,turn,id,work,misses
end,rows";

/// The rows of a history. In version 1 a record lacks `paused` and `since`.
pub const HISTORY_ROWS: &str = "\
pass,now,bandwidth
whole,thread,room,number,taken,running,queued,oldest,started,misses,stamp,paused,since
busy,thread,room,first,second
ahead,thread,room,number,taken,running,queued,oldest,started,misses,stamp,paused,since
foreign,thread,room,number,taken,running,queued,oldest,started,misses,stamp,paused,since
free,core
unban,core
ban,core,thread,started
revoke,core,ban,by
revoke,core,bandwidth
revoke,core,preempt,task
cap,task,cap
grant,core,thread,class
end,passes";
