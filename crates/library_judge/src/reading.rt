// The reading of a trace, record by record: the states and the messages of its pattern. A state is added for each process at the start and for each checkpoint, and is
// live until the next one of its process.
ghost use Rattle.std.specs.Prelude.{◌≡◌, ◌+◌, ◌*◌, ◌≤◌, ◌<◌, IfSome};
ghost use Rattle.laws.specs.Basics.{Some, length};
ghost use Rattle.theory_patterns.specs.Patterns.{most_judged};
ghost use Rattle.model.specs.Words.{most_processes};
ghost use Rattle.library_judge.specs.decision.Rows.{most_rows};
ghost use Rattle.trace.specs.Answers.{event_in};
ghost use Rattle.library_judge.specs.Kept.{Ready, Reads, ReadsAll};
ghost use Rattle.library_judge.specs.Readings.{answer_by, read_by, with_state, settled, checkpoint_refusal, with_checkpoint, EnoughRoom, send_refusal, with_message, SendRoom, found_in_of, drop_refusal, lost_of, received_of, DeliverRoom, FirstRows};

use crate::pattern::{Fate, Sent, State};
use model::{Event, Interval, PROCESSES, Refusal};
use theory_patterns::MOST_JUDGED;
use trace::reader::Reader;

// A row for each process and one for each record.
pub const ROWS: usize = MOST_JUDGED + PROCESSES;

// What is read so far. Memory is fixed: lists have as much room as the longest trace needs, and say how much of it is used.
#[derive(Drop)]
pub struct Reading {
    // the states, of which so many are used
    pub states: [State; ROWS],
    pub rows: usize,
    // the row of each process's live state
    pub current: [u16; PROCESSES],
    // the messages, of which so many were sent
    pub messages: [Sent; MOST_JUDGED],
    pub last: usize,
    // how many are under way
    pub underway: usize,
}

// A message under way that a record names: its place and its receiver.
#[derive(Clone, Copy)]
pub struct Found {
    pub place: usize,
    pub receiver: u16,
}

impl Reading {
    // Process i has a new live state.
    #[tactic(auto, unfolding(crate::specs::Readings::with_state))]
    fn add_state(&mut self, i: usize, vector: [Interval; PROCESSES])
        requires { (i < most_processes) × (self.old.rows < most_rows) }
        ensures { self.new ≡ with_state self.old i vector }
    {
        let row = self.rows;
        self.states[row] = State {
            process: i as u16,
            vector,
        };
        self.rows = row + 1;
        self.current[i] = row as u16;
    }

    #[tactic(auto, unfolding(crate::specs::Readings::checkpoint_refusal, model::specs::Refusals::first_of))]
    fn checkpoint(&mut self, n: usize, i: usize) -> Result<(), Refusal>
        requires { EnoughRoom n self.old }
        ensures answer { result ≡ answer_by (checkpoint_refusal n self.old i) }
        ensures after { self.new ≡ read_by (checkpoint_refusal n self.old i) self.old (with_checkpoint self.old i) }
    {
        if n <= i {
            return Err(Refusal::NoSuchProcess);
        }
        let live = self.states[usize::from(self.current[i])].vector;
        if admissions::is_last_interval(live[i]) {
            return Err(Refusal::IntervalsUsed);
        }
        self.add_state(i, words::rows::vector::advanced(live, i));
        Ok(())
    }

    // The message carries the vector of its sender's live state.
    #[tactic(auto, unfolding(crate::specs::Readings::with_message, crate::specs::Readings::send_refusal, admissions::specs::Admissions::refusal_of))]
    fn send(&mut self, n: usize, i: usize, receiver: usize) -> Result<(), Refusal>
        requires { SendRoom n self.old }
        ensures answer { result ≡ answer_by (send_refusal n self.old i receiver) }
        ensures after { self.new ≡ read_by (send_refusal n self.old i receiver) self.old (with_message self.old i receiver) }
    {
        let place = self.last;
        admissions::send_admission(i, receiver, n, self.underway, place as u32)?;
        let from = self.current[i];
        self.messages[place] = Sent {
            from,
            carried: self.states[usize::from(from)].vector,
            fate: Fate::UnderWay(receiver as u16),
        };
        self.last = place + 1;
        self.underway += 1;
        Ok(())
    }

    // The message that a record names, if it is under way. None has number 0.
    #[tactic(auto, unfolding(crate::specs::Readings::found_in_of, crate::specs::Readings::is_under_way))]
    fn find(&self, m: u32) -> Option<Found>
        requires { self.now.last ≤ most_judged }
        ensures found { result ≡ found_in_of self.now m }
        ensures sent { IfSome result (λ f. f.place < self.now.last) }
    {
        let place = (m as usize).checked_sub(1)?;
        if self.last <= place {
            return None;
        }
        match self.messages[place].fate {
            Fate::UnderWay(receiver) => Some(Found { place, receiver }),
            _ => None,
        }
    }

    // A message is no longer under way.
    #[tactic(auto, unfolding(crate::specs::Readings::settled))]
    fn settle(&mut self, place: usize, fate: Fate)
        requires { place < most_judged }
        ensures { self.new ≡ settled self.old place fate }
    {
        self.messages[place].fate = fate;
        self.underway = self.underway.saturating_sub(1);
    }

    fn lose(&mut self, m: u32) -> Result<(), Refusal>
        requires { self.old.last ≤ most_judged }
        ensures answer { result ≡ answer_by (drop_refusal (found_in_of self.old m)) }
        ensures after { self.new ≡ lost_of self.old (found_in_of self.old m) }
    {
        let found = self.find(m).ok_or(Refusal::NotUnderWay)?;
        self.settle(found.place, Fate::Lost);
        Ok(())
    }

    // The receiver's live state takes in what the message carries: the greater of each two entries. No line of the judge tells the set of the entries that rose, so it is
    // not made here (Note 3's steps, which make it, are those of a run's own deliveries).
    #[tactic(auto, unfolding(crate::specs::Readings::with_receipt))]
    fn deliver(&mut self, m: u32) -> Result<(), Refusal>
        requires { DeliverRoom self.old m }
        ensures answer { result ≡ answer_by (drop_refusal (found_in_of self.old m)) }
        ensures after { self.new ≡ received_of self.old (found_in_of self.old m) }
    {
        let found = self.find(m).ok_or(Refusal::NotUnderWay)?;
        let row = self.current[usize::from(found.receiver)];
        let own = self.states[usize::from(row)].vector;
        let carried = self.messages[found.place].carried;
        self.states[usize::from(row)].vector = words::rows::vector::greatest(own, carried);
        self.settle(found.place, Fate::Received(row));
        Ok(())
    }

    // A record's event. "A record of kind 4 is refused with 14."
    fn event(&mut self, n: usize, e: Event) -> Result<(), Refusal>
        requires { Ready n self.old }
        ensures { Reads n self.old (Some e) result self.new }
    {
        match e {
            Event::Checkpoint(i) => self.checkpoint(n, i),
            Event::Send(i, j) => self.send(n, i, j as usize),
            Event::Deliver(m) => self.deliver(m),
            Event::Lose(m) => self.lose(m),
            Event::Recover(failed) => Err(Refusal::MalformedRecord),
        }
    }

    // A record, as the part of the trace with its four bytes.
    #[tactic(auto, using(crate::proofs::Records::malformed_reads))]
    fn record(&mut self, n: usize, part: &[u8]) -> Result<(), Refusal>
        requires { Ready n self.old }
        ensures { Reads n self.old (event_in part.now) result self.new }
    {
        let e = trace::decode(part).ok_or(Refusal::MalformedRecord)?;
        self.event(n, e)
    }

    // The states of the first intervals: process p has row p.
    pub(crate) fn begin(&mut self, n: usize)
        requires { (n ≤ most_processes) × (self.old.rows ≡ 0) × (self.old.last ≡ 0) × (self.old.underway ≡ 0) }
        ensures { FirstRows n self.new }
    {
        for p in 0..n {
            self.add_state(p, words::rows::start::first_vector(p));
        }
    }

    // The records of a trace of n processes, up to the first that is refused, then the bytes left over.
    pub(crate) fn read_all(&mut self, trace: &[u8], n: usize) -> Result<(), Refusal>
        requires { FirstRows n self.old × (n ≤ most_processes) × (1 ≤ length trace.now) × (length trace.now ≤ 4 * most_judged + 4) }
        ensures { ReadsAll n trace.now result self.new }
    {
        for part in Reader::open(trace) {
            self.record(n, part)?;
        }
        if (trace.len() - 1) % 4 != 0 {
            return Err(Refusal::LeftOverBytes);
        }
        Ok(())
    }
}
