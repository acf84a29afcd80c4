// The records that were read are taken, as many as have room for their lines.
ghost use Rattle.std.specs.Prelude.{◌≡◌, ◌+◌, ◌≤◌};
ghost use Rattle.laws.specs.Basics.{true, length, take, drop};
ghost use Rattle.whole_runs.specs.WholeRuns.{Reachable};
ghost use Rattle.words.specs.Layout.{run_of};
ghost use Rattle.machine_replay.specs.Replaying.{onward};
ghost use Rattle.machine_replay.specs.Standing.{Blocked, Lies, between_in, state_in, text_place, waiting_place};

use crate::place;
use crate::place::Place;
use library_replay::block::Progress;
use whole_runs::MOST_RECORDS;

// A place that has a text and nothing else.
pub(crate) fn with_text(phase: u64, written: usize) -> Place
    ensures { result ≡ text_place phase written }
{
    Place {
        phase,
        all: false,
        count: 0,
        from: 0,
        buffered: 0,
        written,
    }
}

// A block of records on words of which `reached` says whether calls from a start led to them: then they need no test.
fn replay(
    words: &mut [u16],
    reached: bool,
    all: bool,
    done: u64,
    block: &[u8],
    out: &mut [u8],
) -> Progress
    requires { reached ≡ true → Reachable (run_of words.old) }
    ensures { Blocked all done words.old block.now out.old result words.new out.new }
{
    if reached {
        return library_replay::block::replay_reached(words, all, done, block, out);
    }
    library_replay::block::replay(words, all, done, block, out)
}

// No whole record is held: the bytes held go to the front, and more are read.
fn wait(p: Place, input: &mut [u8]) -> Place
    requires { p.from + p.buffered ≤ length input.old }
    ensures { (result ≡ waiting_place p) × (take p.buffered input.new ≡ take p.buffered (drop p.from input.old)) }
{
    let from = p.from;
    let buffered = p.buffered;
    machines::replay_input::buffer::keep(input, 0, from, from + buffered);
    Place {
        phase: place::READING,
        all: p.all,
        count: p.count,
        from: 0,
        buffered,
        written: 0,
    }
}

pub(crate) fn take(
    p: Place,
    words: &mut [u16],
    input: &mut [u8],
    out: &mut [u8],
    reached: bool,
) -> Place
    requires { Lies p words.old input.old out.old × (reached ≡ true → Reachable (run_of words.old)) }
    ensures { state_in result words.new input.new out.new ≡ onward (length out.old) (between_in p words.old input.old) }
{
    let from = p.from;
    let end = from + p.buffered;
    let made = replay(words, reached, p.all, p.count, &input[from..end], out);
    let taken = made.taken;
    if taken == 0 {
        return wait(p, input);
    }
    if !made.going {
        return with_text(place::ENDING, made.written);
    }
    let count = p.count + taken as u64;
    if MOST_RECORDS <= count {
        return with_text(place::ENDING, made.written);
    }
    Place {
        phase: place::PRINTING,
        all: p.all,
        count,
        from: from + 4 * taken,
        buffered: p.buffered - 4 * taken,
        written: made.written,
    }
}
