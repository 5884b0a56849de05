//! The name of a run, by which what is known of it goes through locks and threads.
ghost use Rattle.std.specs.Prelude.{List};

use channel_work::Turns;
use std::marker::Brand;

/// The name of a run: that of its channel, the queue of its jobs, and the jobs of each host.
pub(crate) trait RunName: Turns {
    /// The queue.
    ghost table: { TableId };

    /// The jobs of each host, in their order.
    ghost jobs: { List (List Job) };

    ghost use Rattle.std.specs.Prelude.{List};
    ghost use Rattle.atomic_table.specs.Seated.{TableId};
    ghost use Rattle.micro_program.specs.Program.{Job};
}

impl RunName for Brand {
    ghost table = { no_table };

    ghost jobs = { [] };

    ghost use Rattle.std.specs.Prelude.{[]};
    ghost use Rattle.seq_run.specs.Hosted.{no_table};
}
