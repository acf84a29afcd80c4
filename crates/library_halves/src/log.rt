// The log of a merge: for each record taken the 32 bits of its record in the merged trace (`word_of`), oldest first. Contracts speak of any list of records taken whose
// log it is.
ghost use Rattle.std.specs.Prelude.{◌≡◌, ◌+◌, ◌*◌, ◌≤◌, ◌<◌};
ghost use Rattle.laws.specs.Basics.{length, sets};
ghost use Rattle.theory_merges.specs.Merge.{most_of_half};
ghost use Rattle.model.specs.Trace.{bytes_of_def};
ghost use Rattle.library_halves.specs.Log.{tallied, tally_of, bytes_up_to};

// A message that was sent: its number in the merged trace, and its receiver.
#[derive(Clone, Copy)]
pub struct Message {
    pub number: u32,
    pub receiver: u32,
}

// Of the records of a log: how many sends there are of one process and in all, and the message of its send `count`, if there is one.
#[derive(Clone, Copy)]
pub struct Tally {
    pub own: u32,
    pub all: u32,
    pub sent: Option<Message>,
}

// One record more.
#[tactic(auto, unfolding(crate::specs::Log::tallied))]
fn tally_word(t: Tally, word: u32, sender: u32, count: u32) -> Tally
    requires { (t.own < 2 * most_of_half) × (t.all < 2 * most_of_half) }
    ensures { result ≡ tallied t word sender count }
{
    if word / trace::KIND != 1 {
        return t;
    }
    let all = t.all + 1;
    if word / trace::ARGUMENTS % trace::PROCESS_NAMES != sender {
        return Tally { all, ..t };
    }
    let own = t.own + 1;
    if own != count {
        return Tally { own, all, ..t };
    }
    let message = Message {
        number: all,
        receiver: word % trace::ARGUMENTS,
    };
    Tally {
        own,
        all,
        sent: Some(message),
    }
}

// The tally of the records taken, for send `count` of process `sender`.
pub(crate) fn tally_all(log: &[u32], sender: u32, count: u32) -> Tally
    requires { length log.now ≤ 2 * most_of_half }
    ensures { result ≡ tally_of log.now (length log.now) sender count }
{
    let mut t = Tally {
        own: 0,
        all: 0,
        sent: None,
    };
    for word in log {
        t = tally_word(t, *word, sender, count);
    }
    t
}

// The four bytes of a word, most significant first.
fn write_word(out: &mut [u8], at: usize, w: u32)
    requires { at + 4 ≤ length out.old }
    ensures { out.new ≡ sets out.old at (bytes_of_def w) }
{
    out[at..at + 4].copy_from_slice(&w.to_be_bytes());
}

// The words of a log as bytes, from the second place on.
pub(crate) fn write_all(log: &[u32], out: &mut [u8])
    requires { 1 + 4 * length log.now ≤ length out.old }
    ensures { out.new ≡ sets out.old 1 (bytes_up_to (length log.now) log.now) }
{
    for (i, word) in log.iter().enumerate() {
        write_word(out, 1 + 4 * i, *word);
    }
}
