//! What help says of each subcommand below its options: what goes in and comes out, the exit
//! statuses, and a whole small run to copy, which tools/examples makes.

/// A help text with a whole small run to copy: what goes in and comes out, with the exit statuses;
/// the command; and what stands after the task table, with what the run writes.
#[macro_export]
macro_rules! help_with_a_run {
    ($says:literal, $command:literal, $trace:literal) => {
        concat!(
            $says,
            "\n\nTo try it:\n\n",
            $command,
            " <<'END'\n",
            "cores = 2\nbandwidth_limit = 1000\n",
            "[[task]]\nkind = \"lc\"\nguaranteed = 1\nlimit = 1\ndelay = 10\nrequest = 50\n---\n",
            $trace
        )
    };
}

/// What help says of the program or of a subcommand: what it is for, in a line, and what stands
/// below its options.
#[derive(Clone, Copy)]
pub struct Help {
    pub about: &'static str,
    pub after: &'static str,
}

/// Of a subcommand of which help is not asked.
pub const NOTHING: Help = Help {
    about: "",
    after: "",
};

/// Of the program as a whole.
pub const PROGRAM: Help = Help {
    about: "The core scheduler of Caladan over a task table and a trace",
    after: "\
Without a subcommand it runs `decide`. Each subcommand reads one input, from the
standard input or from a file whose name is the last word: a task table (TOML),
the line ---, and a trace (CSV). `caladan_sim SUBCOMMAND --help` describes the
trace and the output, with a whole input to copy; `man caladan-formats`
describes everything.

Exit status: 0 done, 1 an illegal history, 2 bad arguments or rejected input, 3
memory, output or a thread was refused. A fault is one line on the standard
error; on a terminal, or with --explain after the subcommand, lines below it say
why an input was refused. Nothing is said where the reader of the output has
gone.",
};

/// Of the subcommand `decide`.
pub const DECIDE: Help = Help {
    about: "Decide the passes of a signal trace",
    after: help_with_a_run!(
        "\
Standard input: a task table (TOML), the line ---, and signals (CSV): for each
pass a row with its clock and bandwidth figure, and what was found on the page
of each kernel thread.
Standard output: the report: what each pass did, and what each task has at the
end.
Exit status: 0 done, 2 rejected input, 3 memory or output was refused.",
        "caladan_sim decide",
        "\
caladan-signals,2
pass,111,0
whole,0,1,1,0,0,1,100,0,0,105,0,0
end,1
END

It writes:

pass 0 now 111 bandwidth 0
  grant core 0 to thread 0 class 3
end 1 passes
task 0 lc held 1 leaving 0"
    ),
};

/// Of the subcommand `lockstep`.
pub const LOCKSTEP: Help = Help {
    about: "Make a whole run of arrivals on one thread",
    after: help_with_a_run!(
        "\
Standard input: a task table (TOML), the line ---, and arrivals (CSV): the
clocks of the passes and of the kernel threads' turns, and the requests that
come to the threads.
Standard output: the history of the run; with --table the table and the line
--- before it, as `audit` reads them; with --summary, what each kernel thread
did; with --report, what `audit` writes of that history above its last line.
Exit status: 0 done, 2 rejected input, 3 memory or output was refused.",
        "caladan_sim lockstep",
        "\
caladan-arrivals,1
pass,100,0
pass,116,0
turn,105
turn,125
request,0,0,7,1,3
end,5
END

It writes:

caladan-history,2
pass,100,0
whole,0,1,0,0,0,0,0,0,0,0,0,0
pass,116,0
whole,0,1,1,0,0,1,105,0,0,105,0,0
grant,0,0,3
end,2"
    ),
};

/// Of the subcommand `sim`.
pub const SIM: Help = Help {
    about: "Make a whole run of arrivals in threads",
    after: help_with_a_run!(
        "\
Standard input: a task table (TOML), the line ---, and arrivals (CSV): the
clocks of the passes and of the kernel threads' turns, and the requests that
come to the threads.
Standard output: the history of the run; with --table the table and the line
--- before it, as `audit` reads them; with --summary, what each kernel thread
did; with --report, what `audit` writes of that history above its last line.
Threads interleave differently on every run, so the output varies.
Exit status: 0 done, 2 rejected input, 3 memory, output or a thread was
refused.",
        "caladan_sim sim",
        "\
caladan-arrivals,1
pass,100,0
pass,116,0
turn,105
turn,125
request,0,0,7,1,3
end,5
END

It may write:

caladan-history,2
pass,100,0
whole,0,1,0,0,0,0,0,0,0,0,0,0
pass,116,0
whole,0,1,1,0,0,1,105,0,0,105,0,0
grant,0,0,3
end,2"
    ),
};

/// Of the subcommand `audit`.
pub const AUDIT: Help = Help {
    about: "Audit a history against the policy",
    after: help_with_a_run!(
        "\
Standard input: a task table (TOML), the line ---, and a history (CSV), as
`lockstep`, `sim` and `caladan_view history` write it; with --table they write
all three.
Standard output: if every pass is the policy's, the report and the line
`legal`; else the one line `illegal pass P`, where P is the first pass, from 0,
that is not.
Exit status: 0 legal, 1 illegal, 2 rejected input, 3 memory or output was
refused.",
        "caladan_sim audit",
        "\
caladan-history,2
pass,111,0
whole,0,1,1,0,0,1,100,0,0,105,0,0
grant,0,0,3
end,1
END

It writes:

pass 0 now 111 bandwidth 0
  grant core 0 to thread 0 class 3
end 1 passes
task 0 lc held 1 leaving 0
legal"
    ),
};
