// Document 02, Note 10, "Trying a checkpoint spacing": the simulation itself. Every event of a step is a call in place, on words that stand for a state which calls
// reached; what a step chooses and what is counted is in `spacing`.

#![tactic(auto)]

ghost use Rattle.std.specs.Prelude.{◌≡◌, ◌∷◌, ◌≤◌, ◌<◌};
ghost use Rattle.laws.specs.Basics.{true, [], None, Some, pick};
ghost use Rattle.model.specs.declared.Event.TheVariants.{Checkpoint, Deliver};
ghost use Rattle.model.specs.{Sound.sound, Words.most_processes};
ghost use Rattle.theory_recording.specs.Replay.{state_after_events};
ghost use Rattle.words.specs.Layout.{count_of, run_of};
ghost use Rattle.theory_recording.specs.spacing.Spacing.{oldest_to, sends, action, most_kept_of, stepped, trial_start, trial_after, trial_refusal, figures, simulated, AgreesWithReplay, most_steps};
ghost use Rattle.library_trials.specs.Steps.{after, action_of, forced_by_of, number_of, trial_of, Underway};

use model::{DELETIONS, DeliverAnswer, Delivery, MESSAGES, PROCESSES, Refusal};
use theory_recording::spacing::{
    MOST_SPACING, MOST_STEPS, NO_FIGURES, TrialFigures, TrialResult, draws, figures,
};
use words::{WORDS, places};

// A trial between two steps: the words that its state stands in, the generator's last value, how many sends and deliveries of its own each process has done, and
// the figures so far. `simulate` makes it and lends it down, so that its words, 12,928 bytes, stand once on the stack.
#[derive(Drop)]
struct Simulation {
    words: [u16; WORDS],
    value: u32,
    acted: [u32; PROCESSES],
    deliveries: u32,
    forced: u32,
    most: usize,
}

// How many sends and deliveries, deliveries and forced checkpoints the action of a step is, none or one each: what is added to the figures.
#[derive(Clone, Copy)]
struct Action {
    acted: u32,
    deliveries: u32,
    forced: u32,
}

// A step that does nothing.
const NOTHING: Action = Action {
    acted: 0,
    deliveries: 0,
    forced: 0,
};

// Whether a delivery stored a forced checkpoint, as a count.
#[tactic(auto, unfolding(crate::specs::Steps::forced_by_of, whole_runs::specs::Outcomes::deliver_report, theory_recording::specs::spacing::Spacing::has_value))]
fn forced_by(answer: DeliverAnswer) -> u32
    ensures { result ≡ forced_by_of answer }
{
    match answer {
        Ok(
            Delivery {
                forced: Some(index),
                deleted,
            },
        ) => 1,
        _ => 0,
    }
}

// "the oldest is delivered"
fn deliver(w: &mut [u16; WORDS], number: u32) -> Action
    requires { sound (run_of w.old) ≡ true }
    ensures w_after { run_of w.new ≡ after (run_of w.old) (Some (Deliver number)) }
    ensures value { result ≡ action_of (run_of w.old) (Some (Deliver number)) }
{
    let mut deleted = [0u16; DELETIONS];
    let delivered = in_place::deliver::deliver_on(w, number, &mut deleted);
    Action {
        acted: 1,
        deliveries: 1,
        forced: forced_by(delivered.answer),
    }
}

// "Otherwise, if n is at least 2 and fewer than 64 are under way, p sends"
fn send(w: &mut [u16; WORDS], n: usize, p: usize, d: u32) -> Action
    requires { (sound (run_of w.old) ≡ true) × (n ≤ most_processes) × (p < n) }
    ensures w_after { run_of w.new ≡ after (run_of w.old) (sends n (run_of w.old) p d) }
    ensures value { result ≡ action_of (run_of w.old) (sends n (run_of w.old) p d) }
{
    let many = w[places::UNDER_WAY] as usize;
    if n < 2 || MESSAGES <= many {
        return NOTHING;
    }
    let to = draws::chosen_receiver(n, p, d);
    let answer = in_place::send::send_on(w, p, to);
    Action {
        acted: 1,
        ..NOTHING
    }
}

// The number of the oldest message to p under way: numbers ascend with the places, so it is the first of those to p.
fn oldest_to(w: &[u16; WORDS], p: usize) -> Option<u32>
    requires { sound (run_of w.now) ≡ true }
    ensures { result ≡ number_of (oldest_to (run_of w.now) p) }
{
    let end = w[places::END] as usize;
    for k in 0..end {
        let number = words::messages::number_at(w, k);
        if w[places::RECEIVERS + k] as usize == p && number != 0 {
            return Some(number);
        }
    }
    None
}

// "If a message to p is under way and d is even, the oldest is delivered. Otherwise .."
fn act(w: &mut [u16; WORDS], n: usize, p: usize, d: u32) -> Action
    requires { (sound (run_of w.old) ≡ true) × (n ≤ most_processes) × (p < n) }
    ensures w_after { run_of w.new ≡ after (run_of w.old) (action n (run_of w.old) p d) }
    ensures value { result ≡ action_of (run_of w.old) (action n (run_of w.old) p d) }
{
    match oldest_to(w, p) {
        Some(number) if d % 2 == 0 => deliver(w, number),
        _ => send(w, n, p, d),
    }
}

// "p takes a checkpoint", if it is due.
fn rest(w: &mut [u16; WORDS], p: usize, due: bool)
    requires { sound (run_of w.old) ≡ true }
    ensures { run_of w.new ≡ state_after_events (run_of w.old) (pick due (Checkpoint p ∷ []) []) }
{
    if due {
        let mut deleted = [0u16; DELETIONS];
        let answer = in_place::checkpoint::checkpoint_on(w, p, &mut deleted);
    }
}

// "the most kept at any process"
fn most_kept(w: &[u16; WORDS], n: usize) -> usize
    requires { (sound (run_of w.now) ≡ true) × (n ≡ count_of w.now) }
    ensures { result ≡ most_kept_of n (run_of w.now) }
{
    let mut most: usize = 0;
    for p in 0..n {
        most = most.max(w[places::KEPT + p] as usize);
    }
    most
}

impl Simulation {
    // The trial before its first step.
    fn begin(&mut self, n: usize, seed: u32)
        requires { (1 ≤ n) × (n ≤ most_processes) }
        ensures { trial_of self.new ≡ trial_start n seed }
    {
        let answer = in_place::start::start(&mut self.words, n, &[1u32; PROCESSES]);
        self.value = seed;
        self.acted = [0; PROCESSES];
        self.deliveries = 0;
        self.forced = 0;
        self.most = 0;
    }

    // One step.
    fn step(&mut self, n: usize, k: u32)
        requires { Underway n k (trial_of self.old) }
        ensures { trial_of self.new ≡ stepped n k (trial_of self.old) }
    {
        let first = draws::next(self.value);
        self.value = draws::next(first);
        let p = draws::draw_of(first) as usize % n;
        let d = draws::draw_of(self.value);
        let action = act(&mut self.words, n, p, d);
        rest(
            &mut self.words,
            p,
            draws::is_due(k, self.acted[p], action.acted),
        );
        self.acted[p] += action.acted;
        self.deliveries += action.deliveries;
        self.forced += action.forced;
        self.most = self.most.max(most_kept(&self.words, n));
    }

    // That many steps from the start.
    fn run(&mut self, n: usize, k: u32, steps: u32, seed: u32)
        requires { (1 ≤ n) × (n ≤ most_processes) × (1 ≤ k) × (steps ≤ most_steps) }
        ensures { trial_of self.new ≡ trial_after n k steps seed }
    {
        self.begin(n, seed);
        for _ in 0..steps {
            self.step(n, k);
        }
    }

    // The five figures of a trial.
    fn figures(&self) -> TrialFigures
        requires { self.now.forced ≤ most_steps }
        ensures { result ≡ figures (trial_of self.now) }
    {
        TrialFigures {
            deliveries: self.deliveries,
            forced: self.forced,
            most: self.most,
            quotient: figures::quotient_of(self.forced, self.deliveries),
            remainder: figures::remainder_of(self.forced, self.deliveries),
        }
    }
}

// A simulation of n processes with this spacing, this many steps and this starting value: its figures, or 22 and zeros.
pub fn simulate(n: usize, spacing: u32, steps: u32, seed: u32) -> TrialResult
    ensures value { result ≡ simulated n spacing steps seed }
    ensures agrees_with_replay { trial_refusal n spacing steps ≡ None → AgreesWithReplay n spacing steps seed }
{
    if figures::is_outside(1, PROCESSES, n)
        || figures::is_outside(1, MOST_SPACING, spacing as usize)
        || figures::is_outside(1, MOST_STEPS, steps as usize)
    {
        return TrialResult {
            answer: Err(Refusal::TrialOutsideRange),
            figures: NO_FIGURES,
        };
    }
    let mut simulation = Simulation {
        words: [0; WORDS],
        value: seed,
        acted: [0; PROCESSES],
        deliveries: 0,
        forced: 0,
        most: 0,
    };
    simulation.run(n, spacing, steps, seed);
    TrialResult {
        answer: Ok(()),
        figures: simulation.figures(),
    }
}
