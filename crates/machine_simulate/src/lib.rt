// The program `simulate` as a machine, without input or output: what the system answered goes in, what to ask for next comes out. Its states are defined in
// `specs/Simulating`, with the theorem over every list of answers; which state the lent numbers and buffers stand for, in `specs/Words`.

#![tactic(auto)]

// arguments.rt: the words that the program is started with
pub mod arguments;

// print.rt: what is printed of a result
pub mod print;

ghost use Rattle.std.specs.Prelude.{◌≡◌, ◌≤◌};
ghost use Rattle.laws.specs.Basics.{List, ℕ, length, get_or, take, pick};
ghost use Rattle.theory_recording.specs.spacing.Spacing.{most_spacing};
ghost use Rattle.machines.specs.{Machines.brought, Machines.stepped, Forms.answer_of, Forms.taken_of, Forms.Between};
ghost use Rattle.machine_simulate.specs.Text.{longest_text, trial_of};
ghost use Rattle.machine_simulate.specs.Simulating.{longest_word, usage, output_name, Counting, Asking, Printing, Tabling, Reporting, Failing, Stopped, tabled, answered, decided, next_row_of, simulating};
ghost use Rattle.machine_simulate.specs.Words.{EnoughRoom, lacks_room_of, kept_in, state_of, Puts, StandsFor};

use arguments::{Numbers, Spacings};
use machines::heard::Taken;
use machines::programs::numbers::clamped;
use machines::{Answer, Request, heard};
use model::Refusal;
use theory_recording::spacing::TrialResult;

// The phases; 1 to 4 are the words. Every other number stands for a machine that has stopped.
const COUNTING: u64 = 0;

const PRINTING: u64 = 5;

const TABLING: u64 = 6;

const REPORTING: u64 = 7;

const FAILING: u64 = 8;

const STOPPED: u64 = 9;

// How many bytes a caller lends: for the longest word that is looked at (longest_word in specs/Simulating), and for the longest text (longest_text in specs/Text).
pub const LONGEST_WORD: usize = 65536;

pub const LONGEST_TEXT: usize = 260;

const LAST_SPACING: u64 = theory_recording::spacing::MOST_SPACING as u64;

// Whether one of the lent lists is too short for every run.
pub fn lacks_room(memory: usize, input: usize, out: usize) -> bool
    ensures { result ≡ lacks_room_of memory input out }
{
    if memory < 8 {
        return true;
    }
    if input < LONGEST_WORD {
        return true;
    }
    out < LONGEST_TEXT
}

fn flag(b: bool) -> u64
    ensures { result ≡ pick b 1 0 }
{
    if b { 1 } else { 0 }
}

fn put(memory: &mut [u64], phase: u64, count: usize, k: Numbers)
    requires { 8 ≤ length memory.old }
    ensures { Puts memory.new phase count k }
{
    let spacings = k.spacings;
    let many = flag(spacings.many);
    memory[0] = phase;
    memory[1] = count as u64;
    memory[2] = k.n;
    memory[3] = many;
    memory[4] = spacings.from;
    memory[5] = spacings.to;
    memory[6] = k.steps;
    memory[7] = k.seed;
}

// The numbers of the words.
fn kept(memory: &[u64]) -> Numbers
    requires { 8 ≤ length memory.now }
    ensures { result ≡ kept_in memory.now }
{
    let spacings = Spacings {
        many: memory[3] == 1,
        from: memory[4],
        to: memory[5],
    };
    Numbers {
        n: memory[2],
        spacings,
        steps: memory[6],
        seed: memory[7],
    }
}

fn stop(memory: &mut [u64]) -> Request
    requires { 8 ≤ length memory.old }
    ensures { (input out : List ℕ) → StandsFor memory.new input out result Stopped }
{
    put(memory, STOPPED, 0, arguments::no_numbers());
    Request::Stop
}

// Word i is asked for.
fn ask_word(memory: &mut [u64], input: &[u8], out: &[u8], i: usize, k: Numbers) -> Request
    requires { EnoughRoom (length memory.old) (length input.now) (length out.now) × (1 ≤ i) × (i ≤ 4) }
    ensures { StandsFor memory.new input.now out.now result (Asking i k) }
{
    put(memory, i as u64, 0, k);
    Request::Argument(i, 0, LONGEST_WORD)
}

// The front of the buffer is the last text.
fn print_last(memory: &mut [u64], input: &[u8], out: &[u8], size: usize) -> Request
    requires { EnoughRoom (length memory.old) (length input.now) (length out.now) × (size ≤ longest_text) }
    ensures { StandsFor memory.new input.now out.now result (Printing (take size out.now)) }
{
    put(memory, PRINTING, size, arguments::no_numbers());
    Request::Write(size)
}

// The front of the buffer is a line of a table; these rows follow.
fn tabulate(memory: &mut [u64], input: &[u8], out: &[u8], size: usize, k: Numbers) -> Request
    requires { EnoughRoom (length memory.old) (length input.now) (length out.now) × (size ≤ longest_text) × (k.spacings.to ≤ most_spacing) }
    ensures { StandsFor memory.new input.now out.now result (Tabling (take size out.now) k) }
{
    put(memory, TABLING, size, k);
    Request::Write(size)
}

// The usage line is reported.
fn report_usage(memory: &mut [u64], input: &[u8], out: &mut [u8]) -> Request
    requires { EnoughRoom (length memory.old) (length input.now) (length out.old) }
    ensures { StandsFor memory.new input.now out.new result (Reporting usage) }
{
    let size = machines::programs::text::write_word(
        out,
        0,
        b"usage: simulate N SPACING STEPS SEED, or simulate N FROM-TO STEPS SEED\n",
    );
    put(memory, REPORTING, size, arguments::no_numbers());
    Request::Say(size)
}

// A failed write is reported.
fn fail(memory: &mut [u64], input: &[u8], out: &mut [u8]) -> Request
    requires { EnoughRoom (length memory.old) (length input.now) (length out.old) }
    ensures { StandsFor memory.new input.now out.new result (Failing output_name) }
{
    let size = machines::programs::text::write_word(out, 0, b"simulate: standard output");
    put(memory, FAILING, size, arguments::no_numbers());
    Request::Fail(size)
}

// The simulation of one spacing.
fn trial(k: Numbers, spacing: u64) -> TrialResult
    ensures { result ≡ trial_of k.n spacing k.steps k.seed }
{
    let n = clamped(k.n);
    let each = clamped(spacing);
    let steps = clamped(k.steps);
    let seed = clamped(k.seed);
    library_trials::simulate(n as usize, each, steps, seed)
}

// A table is refused, or begins with its first line.
fn table(memory: &mut [u64], input: &[u8], out: &mut [u8], k: Numbers) -> Request
    requires { EnoughRoom (length memory.old) (length input.now) (length out.old) }
    ensures { StandsFor memory.new input.now out.new result (tabled k) }
{
    let spacings = k.spacings;
    if arguments::is_refused(k.n, spacings.from, spacings.to, k.steps) {
        let refused = machines::programs::text::write_refused(out, Refusal::TrialOutsideRange);
        return print_last(memory, input, out, refused);
    }
    let size = machines::programs::text::write_word(
        out,
        0,
        b"# spacing deliveries forced most-kept forced-per-thousand-deliveries remainder\n",
    );
    tabulate(memory, input, out, size, k)
}

// What four numbers ask for: a table, or the figures of one simulation.
fn answer_with(memory: &mut [u64], input: &[u8], out: &mut [u8], k: Numbers) -> Request
    requires { EnoughRoom (length memory.old) (length input.now) (length out.old) }
    ensures { StandsFor memory.new input.now out.new result (answered k) }
{
    let spacings = k.spacings;
    if spacings.many {
        return table(memory, input, out, k);
    }
    let result = trial(k, spacings.from);
    let size = print::write_result(out, result);
    print_last(memory, input, out, size)
}

fn decide(memory: &mut [u64], input: &[u8], out: &mut [u8], k: Numbers) -> Request
    requires { EnoughRoom (length memory.old) (length input.now) (length out.old) }
    ensures { StandsFor memory.new input.now out.new result (decided k) }
{
    let spacings = k.spacings;
    if arguments::is_wrong(k.n, spacings, k.steps, k.seed) {
        return report_usage(memory, input, out);
    }
    answer_with(memory, input, out, k)
}

// The row of the spacing that is next, unless it is past the last.
fn next_row(memory: &mut [u64], input: &[u8], out: &mut [u8], k: Numbers) -> Request
    requires { EnoughRoom (length memory.old) (length input.now) (length out.old) × (k.spacings.to ≤ most_spacing) }
    ensures { StandsFor memory.new input.now out.new result (next_row_of k) }
{
    let spacings = k.spacings;
    if spacings.to < spacings.from {
        return stop(memory);
    }
    let result = trial(k, spacings.from);
    let size = print::write_row(out, spacings.from as u32, result);
    let after = Spacings {
        from: spacings.from + 1,
        ..spacings
    };
    let rest = Numbers {
        spacings: after,
        ..k
    };
    tabulate(memory, input, out, size, rest)
}

// The count is answered.
fn after_count(memory: &mut [u64], input: &[u8], out: &mut [u8], answer: Answer) -> Request
    requires { EnoughRoom (length memory.old) (length input.now) (length out.old) }
    ensures { StandsFor memory.new input.now out.new result (stepped simulating Counting (answer_of answer 0 input.now)) }
{
    if heard::is_number(answer, 5) {
        return ask_word(memory, input, out, 1, arguments::no_numbers());
    }
    report_usage(memory, input, out)
}

// How long a word is. One that is too long counts as an empty one.
fn size_of(taken: Taken) -> usize
    requires { Between taken 0 longest_word }
    ensures { ((input : List ℕ) → brought (taken_of taken 0 input) ≡ take result input) × (result ≤ longest_word) }
{
    match taken {
        Taken::Brought(size) => size,
        Taken::Ended => 0,
        Taken::Failed => 0,
    }
}

// Word i is answered.
fn after_word(
    memory: &mut [u64],
    input: &[u8],
    out: &mut [u8],
    i: usize,
    k: Numbers,
    answer: Answer,
) -> Request
    requires { EnoughRoom (length memory.old) (length input.now) (length out.old) × (1 ≤ i) × (i ≤ 4) }
    ensures { StandsFor memory.new input.now out.new result (stepped simulating (Asking i k) (answer_of answer 0 input.now)) }
{
    let size = size_of(heard::word(answer, LONGEST_WORD));
    let numbers = arguments::with_word(i, k, &input[..size]);
    if i < 4 {
        return ask_word(memory, input, out, i + 1, numbers);
    }
    decide(memory, input, out, numbers)
}

// The last text is written, or not.
fn after_last(memory: &mut [u64], input: &[u8], out: &mut [u8], answer: Answer) -> Request
    requires { EnoughRoom (length memory.old) (length input.now) (length out.old) }
    ensures { (text : List ℕ) → StandsFor memory.new input.now out.new result (stepped simulating (Printing text) (answer_of answer 0 input.now)) }
{
    if heard::is_done(answer) {
        return stop(memory);
    }
    fail(memory, input, out)
}

// A line of a table is written, or not.
fn after_line(
    memory: &mut [u64],
    input: &[u8],
    out: &mut [u8],
    k: Numbers,
    answer: Answer,
) -> Request
    requires { EnoughRoom (length memory.old) (length input.now) (length out.old) × (k.spacings.to ≤ most_spacing) }
    ensures { (text : List ℕ) → StandsFor memory.new input.now out.new result (stepped simulating (Tabling text k) (answer_of answer 0 input.now)) }
{
    if heard::is_done(answer) {
        return next_row(memory, input, out, k);
    }
    fail(memory, input, out)
}

// A table goes on, if it is one that can be.
fn go_on(memory: &mut [u64], input: &[u8], out: &mut [u8], answer: Answer) -> Request
    requires { EnoughRoom (length memory.old) (length input.now) (length out.old) × (get_or memory.old 0 0 ≡ 6) }
    ensures { StandsFor memory.new input.now out.new result (stepped simulating (state_of memory.old input.now out.old) (answer_of answer 0 input.now)) }
{
    let k = kept(memory);
    let spacings = k.spacings;
    if LAST_SPACING < spacings.to {
        return stop(memory);
    }
    after_line(memory, input, out, k, answer)
}

// The first state.
pub fn begin(memory: &mut [u64], input: &[u8], out: &[u8]) -> Request
    requires { EnoughRoom (length memory.old) (length input.now) (length out.now) }
    ensures { StandsFor memory.new input.now out.now result Counting }
{
    put(memory, COUNTING, 0, arguments::no_numbers());
    Request::Count
}

// What the system answered goes in, what to ask for next comes out.
pub fn step(memory: &mut [u64], input: &[u8], out: &mut [u8], answer: Answer) -> Request
    ensures { StandsFor memory.new input.now out.new result (stepped simulating (state_of memory.old input.now out.old) (answer_of answer 0 input.now)) }
{
    if lacks_room(memory.len(), input.len(), out.len()) {
        return Request::Stop;
    }
    let phase = memory[0];
    if phase == COUNTING {
        return after_count(memory, input, out, answer);
    }
    if phase <= 4 {
        let k = kept(memory);
        return after_word(memory, input, out, phase as usize, k, answer);
    }
    if phase == PRINTING {
        return after_last(memory, input, out, answer);
    }
    if phase == TABLING {
        return go_on(memory, input, out, answer);
    }
    stop(memory)
}
