// Where an answer leads, by phase.
ghost use Rattle.std.specs.Prelude.{◌≡◌, ◌+◌, ◌*◌, ◌≤◌, ◌<◌};
ghost use Rattle.laws.specs.Basics.{true, length};
ghost use Rattle.laws.specs.Tests.{same};
ghost use Rattle.model.specs.{Words.ones, Refusals.start_refusal};
ghost use Rattle.whole_runs.specs.{Listing.most_records, WholeRuns.Reachable};
ghost use Rattle.words.specs.Layout.{run_of};
ghost use Rattle.machines.specs.Machines.{heard_read, heard_done, heard_count, heard_word, brought, is_number};
ghost use Rattle.machines.specs.Forms.{answer_of, taken_of, Between};
ghost use Rattle.machine_replay.specs.Standing.{enough_room, Holds, state_in, holding, plain_place};
ghost use Rattle.machine_replay.specs.Ready.{comes_to, Lying, read_state, lines_state, bytes_state};
ghost use Rattle.machine_replay.specs.Replaying as m;

use crate::place::Place;
use crate::{place, records};
use machines::heard::Taken;
use machines::{Answer, heard};
use model::{PROCESSES, StartAnswer};

// The longest word that is compared.
const LONGEST_WORD: usize = 4;

fn fail_input(words: &[u16], input: &[u8], out: &mut [u8]) -> Place
    requires { enough_room (length words.now) (length input.now) (length out.old) ≡ true }
    ensures { state_in result words.now input.now out.new ≡ m.failing m.input_text }
{
    let size = machines::programs::text::write_word(out, 0, b"replay: standard input");
    records::with_text(place::FAILING, size)
}

fn fail_output(words: &[u16], input: &[u8], out: &mut [u8]) -> Place
    requires { enough_room (length words.now) (length input.now) (length out.old) ≡ true }
    ensures { state_in result words.now input.now out.new ≡ m.failing m.output_text }
{
    let size = machines::programs::text::write_word(out, 0, b"replay: standard output");
    records::with_text(place::FAILING, size)
}

// A place with nothing but a way.
fn plain(phase: u64, all: bool) -> Place
    ensures { result ≡ plain_place phase all }
{
    Place {
        phase,
        all,
        count: 0,
        from: 0,
        buffered: 0,
        written: 0,
    }
}

// "The first byte is n."
fn begin_run(n: u8, all: bool, words: &mut [u16], input: &[u8], out: &mut [u8]) -> Place
    requires { enough_room (length words.old) (length input.now) (length out.old) ≡ true }
    ensures { state_in result words.new input.now out.new ≡ m.begun all n (start_refusal n ones) }
{
    let block_counts = [1u32; PROCESSES];
    let answer = in_place::start::start(words, n as usize, &block_counts);
    match answer {
        Err(why) => {
            let size = listing::output::line::refuse(0, why, out);
            records::with_text(place::ENDING, size)
        }
        Ok(()) => plain(place::READING, all),
    }
}

// How many words the program was started with.
pub(crate) fn after_count(
    p: Place,
    words: &[u16],
    input: &[u8],
    out: &[u8],
    answer: Answer,
) -> Place
    requires { enough_room (length words.now) (length input.now) (length out.now) ≡ true }
    ensures { state_in result words.now input.now out.now ≡ m.counted (is_number (heard_count (answer_of answer p.buffered input.now)) 2) }
{
    let is_one = heard::is_number(answer, 2);
    plain(place::COUNTED, is_one)
}

// Whether a word that came is `all`.
fn is_all(taken: Taken, at: usize, input: &[u8]) -> bool
    requires { Between taken 0 4 × (at + 4 ≤ length input.now) }
    ensures { result ≡ same (brought (taken_of taken at input.now)) m.all_word }
{
    match taken {
        Taken::Brought(size) => machines::replay_input::arguments::is_all(&input[at..at + size]),
        Taken::Ended => false,
        Taken::Failed => false,
    }
}

// The one argument.
pub(crate) fn after_word(p: Place, words: &[u16], input: &[u8], out: &[u8], answer: Answer) -> Place
    requires { (enough_room (length words.now) (length input.now) (length out.now) ≡ true) × (p.buffered < 4) }
    ensures { state_in result words.now input.now out.now ≡ m.next (length out.now) (m.counted p.all) (heard_word 4 (answer_of answer p.buffered input.now)) }
{
    let taken = heard::word(answer, LONGEST_WORD);
    let is_it = is_all(taken, p.buffered, input);
    plain(place::OPENING, p.all & is_it)
}

// The first byte, or none.
pub(crate) fn after_first(
    p: Place,
    words: &mut [u16],
    input: &[u8],
    out: &mut [u8],
    answer: Answer,
) -> Place
    requires { (enough_room (length words.old) (length input.now) (length out.old) ≡ true) × (p.buffered < 4) }
    ensures { state_in result words.new input.now out.new ≡ m.opened p.all (heard_read 1 (answer_of answer p.buffered input.now)) }
{
    let at = p.buffered;
    let taken = heard::read(answer, 1);
    match taken {
        Taken::Brought(_) => begin_run(input[at], p.all, words, input, out),
        Taken::Ended => {
            let size = listing::output::ends::empty(out);
            records::with_text(place::ENDING, size)
        }
        Taken::Failed => fail_input(words, input, out),
    }
}

// That many bytes more are held.
fn with_more(p: Place, more: usize) -> Place
    requires { (p.buffered < 4) × (more < 4 * most_records + 4) }
    ensures { result ≡ holding p more }
{
    Place {
        phase: place::READING,
        all: p.all,
        count: p.count,
        from: 0,
        buffered: p.buffered + more,
        written: 0,
    }
}

// What an answer comes to: records to take, or a place that stays.
#[derive(Clone, Copy)]
pub(crate) enum Ready {
    Take(Place),
    Stay(Place),
}

// The next bytes of the trace, or its end: "13 prints under the next record number and ends".
fn ready_read(p: Place, words: &[u16], input: &[u8], out: &mut [u8], answer: Answer) -> Ready
    requires { Holds p words.now input.now out.old × (p.phase ≡ 3) }
    ensures out_after { comes_to result words.now input.now out.new ≡ read_state p words.now input.now (length out.old) answer }
    ensures lying { Lying result words.now input.now out.new }
{
    let at = p.buffered;
    let most = machines::replay_input::buffer::fill_to(p.count, input.len()) - at;
    let taken = heard::read(answer, most);
    match taken {
        Taken::Brought(more) => Ready::Take(with_more(p, more)),
        Taken::Ended => {
            let size = listing::output::ends::end(p.count, &input[..at], out);
            Ready::Stay(records::with_text(place::ENDING, size))
        }
        Taken::Failed => Ready::Stay(fail_input(words, input, out)),
    }
}

// The lines of some records are written: there may be more.
fn ready_lines(p: Place, words: &[u16], input: &[u8], out: &mut [u8], answer: Answer) -> Ready
    requires { Holds p words.now input.now out.old }
    ensures out_after { comes_to result words.now input.now out.new ≡ lines_state p words.now input.now (length out.old) answer }
    ensures lying { Lying result words.now input.now out.new }
{
    let is_written = heard::is_done(answer);
    if is_written {
        return Ready::Take(p);
    }
    Ready::Stay(fail_output(words, input, out))
}

fn ready_after(p: Place, words: &[u16], input: &[u8], out: &mut [u8], answer: Answer) -> Ready
    requires { Holds p words.now input.now out.old }
    ensures out_after { comes_to result words.now input.now out.new ≡ bytes_state p words.now input.now (length out.old) answer }
    ensures lying { Lying result words.now input.now out.new }
{
    if p.phase == place::READING {
        return ready_read(p, words, input, out, answer);
    }
    ready_lines(p, words, input, out, answer)
}

// Bytes were read, or lines written. The records are taken in this one place, so that their loop is compiled into the program's.
pub(crate) fn after_bytes(
    p: Place,
    words: &mut [u16],
    input: &mut [u8],
    out: &mut [u8],
    answer: Answer,
    reached: bool,
) -> Place
    requires { Holds p words.old input.old out.old × (reached ≡ true → Reachable (run_of words.old)) }
    ensures { state_in result words.new input.new out.new ≡ bytes_state p words.old input.old (length out.old) answer }
{
    let ready = ready_after(p, words, input, out, answer);
    match ready {
        Ready::Take(q) => records::take(q, words, input, out, reached),
        Ready::Stay(q) => q,
    }
}

// The last lines are written.
pub(crate) fn after_last(
    p: Place,
    words: &[u16],
    input: &[u8],
    out: &mut [u8],
    answer: Answer,
) -> Place
    requires { enough_room (length words.now) (length input.now) (length out.old) ≡ true }
    ensures { state_in result words.now input.now out.new ≡ m.wrote m.stopped (heard_done (answer_of answer p.buffered input.now)) }
{
    let is_written = heard::is_done(answer);
    if is_written {
        return records::with_text(place::STOPPED, 0);
    }
    fail_output(words, input, out)
}
