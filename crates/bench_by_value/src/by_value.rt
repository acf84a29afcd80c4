// A record on a state by value: the call that it stands for.
ghost use Rattle.std.specs.Prelude.{◌≡◌};
ghost use Rattle.laws.specs.Basics.{Some, eqb, replicate};
ghost use Rattle.whole_runs.specs.Listing.{perform};
ghost use Rattle.model.specs.declared.Event.TheVariants as event;

use model::{DELETIONS, Event, PROCESSES, Run};

// "The failed set is a number of 16 bits"
const LARGEST_SET: u32 = 65535;

// The state after it, and whether it was accepted.
#[derive(Clone, Copy)]
pub struct Applied {
    pub run: Run,
    pub accepted: bool,
}

// "In a record, higher bits of the argument count as bits at n or above": a set that does not fit 16 bits is refused.
fn recover(s: Run, failed: u32, deleted: &mut [u16], line: &mut [u16]) -> Applied
    requires { (deleted.old ≡ replicate 512 0) × (line.old ≡ replicate 16 0) }
    ensures run_value { result.run ≡ (perform s (Some (event.Recover failed))).run }
    ensures accepted_value { result.accepted ≡ eqb (perform s (Some (event.Recover failed))).reply.report.refused 0 }
{
    if LARGEST_SET < failed {
        return Applied {
            run: s,
            accepted: false,
        };
    }
    let o = library_calls::recover::recover(s, failed as u16, deleted, line);
    let run = o.run;
    let answer = o.answer;
    let accepted = answer.is_ok();
    Applied { run, accepted }
}

fn event(s: Run, e: Event, deleted: &mut [u16], line: &mut [u16]) -> Applied
    requires { (deleted.old ≡ replicate 512 0) × (line.old ≡ replicate 16 0) }
    ensures run_value { result.run ≡ (perform s (Some e)).run }
    ensures accepted_value { result.accepted ≡ eqb (perform s (Some e)).reply.report.refused 0 }
{
    match e {
        Event::Checkpoint(i) => {
            let o = library_calls::checkpoint::checkpoint(s, i, deleted);
            let run = o.run;
            let answer = o.answer;
            let accepted = answer.is_ok();
            Applied { run, accepted }
        }
        Event::Send(i, j) => {
            let o = library_calls::send::send(s, i, j as usize);
            let run = o.run;
            let answer = o.answer;
            let accepted = answer.is_ok();
            Applied { run, accepted }
        }
        Event::Deliver(m) => {
            let o = library_calls::deliver::deliver(s, m, deleted);
            let run = o.run;
            let answer = o.answer;
            let accepted = answer.is_ok();
            Applied { run, accepted }
        }
        Event::Lose(m) => {
            let o = library_calls::lose::lose(s, m);
            let run = o.run;
            let answer = o.answer;
            let accepted = answer.is_ok();
            Applied { run, accepted }
        }
        Event::Recover(failed) => recover(s, failed, deleted, line),
    }
}

pub(crate) fn apply(s: Run, d: Option<Event>) -> Applied
    ensures run_value { result.run ≡ (perform s d).run }
    ensures accepted_value { result.accepted ≡ eqb (perform s d).reply.report.refused 0 }
{
    let mut deletions = [0u16; DELETIONS];
    let deleted: &mut [u16] = &mut deletions;
    let mut indexes = [0u16; PROCESSES];
    let line: &mut [u16] = &mut indexes;
    match d {
        None => Applied {
            run: s,
            accepted: false,
        },
        Some(e) => event(s, e, deleted, line),
    }
}
