//! Results are printed.

ghost use Rattle.std.specs.List.{flat_map};
ghost use Rattle.byte_streams.specs.Output.{Prints};
ghost use Rattle.race.specs.Results.{job_reply_text, results_text};

use bw_model::Reply;
use bw_shell::{show_number, show_reply};
use byte_streams::{Output, outputs_add_up};
use workers::JobResult;

fn show_job_reply<O: Output>(out: &mut O, job: u32, reply: &Reply)
    ensures { Prints (O.state out.old) (O.state out.new) (job_reply_text job reply.now) }
{
    outputs_add_up();
    show_number(out, u64::from(job));
    show_reply(out, reply);
}

fn show_replies<O: Output>(out: &mut O, job: u32, replies: &[Reply])
    ensures { Prints (O.state out.old) (O.state out.new) (flat_map (job_reply_text job) replies.now) }
{
    outputs_add_up();
    for reply in replies {
        show_job_reply(out, job, reply);
    }
}

/// A line for each reply of each job.
pub fn show_results<O: Output>(out: &mut O, results: &[JobResult])
    ensures { Prints (O.state out.old) (O.state out.new) (results_text results.now) }
{
    outputs_add_up();
    for result in results {
        show_replies(out, result.job, result.replies.as_slice());
    }
}
