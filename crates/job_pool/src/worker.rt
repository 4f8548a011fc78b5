//! The work of one worker.
ghost use Rattle.job_pool.specs.Crews.{IsReady};
ghost use Rattle.job_pool.specs.Stopping.{HasEndedWork};

use crate::batch::{Batch, work_on};
use crate::calls::{is_stopped, stop_others, take_next};
use crate::item::{Batches, Worked};
use crate::job::Job;
use nub_rule::Package;
use std::sync::Wait;

/// Takes batches and works on them until none is left, a job gives Stop, or the thread is alerted.
/// If a job gives Stop, alerts all other threads.
pub fn work_batches<J: Job, R: Wait>(
    rt: &R,
    p: &Package<Batches<Batch<J>>>,
    room: usize,
    worker: Worked<Batch<J>>,
) -> Worked<Batch<J>>
    requires { IsReady p.now room worker }
    ensures { HasEndedWork J.state J.gives J.next p.now worker.0.number result.1.items result.0 }
{
    let (mut me, mut list) = worker;
    for turn in 0..room {
        if is_stopped(rt, p, &mut me) {
            return (me, list);
        }
        match take_next(rt, p, &mut me) {
            Ok(mut item) => {
                let stop = work_on(&mut item.batch);
                list.push_reserved(item);
                if stop {
                    stop_others(rt, p, &mut me);
                    return (me, list);
                }
            }
            Err(_) => return (me, list),
        }
    }
    (me, list)
}
