// Deliver message m to its receiver, which takes in the vector that it carries, and stores a checkpoint first where that is forced.
ghost use Rattle.std.specs.Prelude.{◌≡◌, ◌*◌, ◌≤◌, ◌<◌, Ok, Err, Some, None};
ghost use Rattle.laws.specs.Basics.{true, suc, length, pick};
ghost use Rattle.model.specs.declared.Refusal.{Refusal};
ghost use Rattle.model.specs.{Words.live_index_of, Words.process, Words.most_processes, Steps.forces, Sound.sound};
ghost use Rattle.whole_runs.specs.{Outcomes.deliver_outcome, WholeRuns.StatePromise};
ghost use Rattle.words.specs.{Layout.count_of, Layout.mark_in, Layout.message_in, Layout.run_of, Layout.state_size, messages.Places.place_of};
ghost use Rattle.in_place.specs.{Left.Leaves, Storing.storing_admission};
ghost use Rattle.whole_runs.specs.Calls as made;

use admissions::Admission;
use model::{DeliverAnswer, Delivery, Interval, PROCESSES, Refusal};
use words::places;

// What a deliver call answers. `rose` is the set of the receiver's entries that rose, bit f for entry f; 0 with a refusal.
#[derive(Clone, Copy)]
pub struct Delivered {
    pub answer: DeliverAnswer,
    pub rose: u16,
}

fn refuse(why: Refusal) -> Delivered
    ensures { result ≡ record { answer = Err why; rose = 0 } }
{
    let answer = Err(why);
    Delivered { answer, rose: 0 }
}

// The answer of an accepted delivery to a process with this own entry before it.
fn answer_of(forced: bool, own: Interval, count: usize) -> DeliverAnswer
    requires { 1 ≤ own.0 }
    ensures { result ≡ pick forced (Ok (record { forced = Some (live_index_of own); deleted = count })) (Ok (record { forced = None; deleted = count })) }
{
    if forced {
        let index = words::rows::vector::live_index(own);
        Ok(Delivery {
            forced: Some(index),
            deleted: count,
        })
    } else {
        Ok(Delivery {
            forced: None,
            deleted: count,
        })
    }
}

// Whether process i has sent since its last checkpoint.
fn has_sent(w: &[u16], i: usize) -> bool
    requires { (length w.now ≡ state_size) × (i < most_processes) }
    ensures { result ≡ mark_in w.now i }
{
    w[places::MARKS + i] != 0
}

// Whether a delivery to process i is refused, and why. One that forces no checkpoint is not.
fn forced_admission(w: &[u16], i: usize, forced: bool) -> Admission
    requires { (sound (run_of w.now) ≡ true) × (i < count_of w.now) }
    ensures { result ≡ pick forced (storing_admission (run_of w.now) i) (Ok tt) }
{
    if forced {
        return super::checkpoint::storing_admission(w, i);
    }
    Ok(())
}

// The message in place k reaches its receiver i: a checkpoint is stored first, if one is forced, and then i takes the carried vector in.
fn take_from(
    w: &mut [u16],
    k: usize,
    i: usize,
    forced: bool,
    carried: [Interval; PROCESSES],
    deleted: &mut [u16],
) -> Delivered
    requires w_value { (sound (run_of w.old) ≡ true) × (place_of w.old (message_in w.old k).number ≡ suc k) × (2 * count_of w.old * count_of w.old ≤ length deleted.old) }
    requires i_value { (i ≡ (message_in w.old k).receiver) × (carried ≡ (message_in w.old k).vector) × (forces (process (run_of w.old) i) carried ≡ forced) × (Ok tt ≡ pick forced (storing_admission (run_of w.old) i) (Ok tt)) }
    ensures w_after { run_of w.new ≡ (deliver_outcome (run_of w.old) (message_in w.old k).number deleted.old).run }
    ensures answer_value { result.answer ≡ (deliver_outcome (run_of w.old) (message_in w.old k).number deleted.old).answer }
    ensures rose_value { result.rose ≡ (deliver_outcome (run_of w.old) (message_in w.old k).number deleted.old).rose }
    ensures deleted_after { deleted.new ≡ (deliver_outcome (run_of w.old) (message_in w.old k).number deleted.old).deleted }
    ensures w_unchanged { (why : Refusal) → result.answer ≡ Err why → w.new ≡ w.old }
    ensures leaves { Leaves w.old w.new }
{
    let own = words_process::steps::own_of(w, i);
    let received = words_process::steps::receive(w, i, forced, carried, deleted);
    words::messages::take_out(w, k);
    let answer = answer_of(forced, own, received.gone);
    let rose = received.rose;
    Delivered { answer, rose }
}

// The message in place k reaches its receiver. One that brings nothing new changes no row: it is taken out, and that is all.
fn deliver_from(w: &mut [u16], k: usize, deleted: &mut [u16]) -> Delivered
    requires { (sound (run_of w.old) ≡ true) × (place_of w.old (message_in w.old k).number ≡ suc k) × (2 * count_of w.old * count_of w.old ≤ length deleted.old) }
    ensures w_after { run_of w.new ≡ (deliver_outcome (run_of w.old) (message_in w.old k).number deleted.old).run }
    ensures answer_value { result.answer ≡ (deliver_outcome (run_of w.old) (message_in w.old k).number deleted.old).answer }
    ensures rose_value { result.rose ≡ (deliver_outcome (run_of w.old) (message_in w.old k).number deleted.old).rose }
    ensures deleted_after { deleted.new ≡ (deliver_outcome (run_of w.old) (message_in w.old k).number deleted.old).deleted }
    ensures w_unchanged { (why : Refusal) → result.answer ≡ Err why → w.new ≡ w.old }
    ensures leaves { Leaves w.old w.new }
{
    let i = w[places::RECEIVERS + k] as usize;
    let vector = words::vector_at(w, places::PARTS + places::PART * i);
    let carried = words::vector_at(w, places::CARRIED + places::ROW * k);
    let newer = words::rows::vector::is_newer(vector, carried);
    if !newer {
        words::messages::take_out(w, k);
        let answer = Ok(Delivery {
            forced: None,
            deleted: 0,
        });
        return Delivered { answer, rose: 0 };
    }
    let forced = has_sent(w, i);
    let admission = forced_admission(w, i, forced);
    match admission {
        Err(why) => refuse(why),
        Ok(()) => take_from(w, k, i, forced, carried, deleted),
    }
}

// The words stand for a sound state.
pub fn deliver_on(w: &mut [u16], m: u32, deleted: &mut [u16]) -> Delivered
    requires { sound (run_of w.old) ≡ true }
    ensures w_after { run_of w.new ≡ (deliver_outcome (run_of w.old) m deleted.old).run }
    ensures answer_value { result.answer ≡ (deliver_outcome (run_of w.old) m deleted.old).answer }
    ensures rose_value { result.rose ≡ (deliver_outcome (run_of w.old) m deleted.old).rose }
    ensures deleted_after { deleted.new ≡ (deliver_outcome (run_of w.old) m deleted.old).deleted }
    ensures w_unchanged { (why : Refusal) → result.answer ≡ Err why → w.new ≡ w.old }
    ensures leaves { Leaves w.old w.new }
{
    let n = w[places::COUNT] as usize;
    let short = admissions::are_deletions_short(deleted.len(), n);
    if short {
        return refuse(Refusal::ListTooShort);
    }
    let found = words::messages::place_of(w, m);
    match found {
        None => refuse(Refusal::NotUnderWay),
        Some(k) => deliver_from(w, k, deleted),
    }
}

// Message m reaches its receiver. What is deleted goes to the front of the lent list.
// Wherever calls from an accepted start led to the state of the words, what the words then keep and its blocks are right (demand 3).
pub fn deliver(w: &mut [u16], m: u32, deleted: &mut [u16]) -> Delivered
    ensures w_after { run_of w.new ≡ (deliver_outcome (run_of w.old) m deleted.old).run }
    ensures answer_value { result.answer ≡ (deliver_outcome (run_of w.old) m deleted.old).answer }
    ensures rose_value { result.rose ≡ (deliver_outcome (run_of w.old) m deleted.old).rose }
    ensures deleted_after { deleted.new ≡ (deliver_outcome (run_of w.old) m deleted.old).deleted }
    ensures w_unchanged { (why : Refusal) → result.answer ≡ Err why → w.new ≡ w.old }
    ensures leaves { Leaves w.old w.new }
    ensures state_promise { StatePromise (run_of w.old) (made.deliver m deleted.old) (run_of w.new) }
{
    let sound = words_sound::is_sound(w);
    if !sound {
        return refuse(Refusal::UnsoundState);
    }
    deliver_on(w, m, deleted)
}
