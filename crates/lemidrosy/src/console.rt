// The console (document 02, Note 13): each call in place once more, and two more calls. First comes the caller: the number of its role (0 an operator, 1 a job owner, 2 a
// viewer) and the set of an owner's processes, bit p of which stands for process p; then the call's own arguments. What the caller may not do is refused with 25, before
// every other number, and so is a number that is no role's. A refused call leaves every word and every entry of its lists as it was; only a start that is refused with a
// number other than 25 makes the words zero.
ghost use Rattle.std.specs.Prelude.{◌≡◌, Err};
ghost use Rattle.laws.specs.Basics.{length};
ghost use Rattle.listing.specs.answers.Codes.{Fits, start_code, checkpoint_code, send_code, deliver_code, lose_code, line_code, recover_code};
ghost use Rattle.words.specs.{Clean.Clean, Layout.run_of, Layout.state_size};
ghost use Rattle.words_line.specs.Through.{named_in};
ghost use Rattle.theory_roles.specs.Console.{list_report};
ghost use Rattle.library_console.specs.Asked.{start_as, start_words_as, checkpoint_as, send_as, deliver_as, lose_as, recover_as, line_as, earliest_as, list_as, counts_as};
ghost use Rattle.lemidrosy.specs.{Changes.Changes, Console.list_code};

use theory_roles::ListAnswer;

// The number of the answer to a list. The value says how many checkpoints are listed.
fn of_list(answer: ListAnswer) -> u64
    requires { Fits (list_report answer) }
    ensures { result ≡ list_code answer }
{
    match answer {
        Err(why) => library_readers::refused(why),
        Ok(many) => library_readers::counted(many),
    }
}

// A run of n processes with the block count of each begins in the words: for an operator alone.
#[unsafe(no_mangle)]
pub extern "C" fn lemidrosy_console_start(
    role: u32,
    owned: u32,
    words: &mut [u16],
    n: usize,
    block_counts: &[u32],
) -> u64
    ensures fact { let o = start_as role owned words.old n block_counts.now in
        (result ≡ start_code o.answer) × (run_of words.new ≡ o.run) }
    ensures words_after { words.new ≡ start_words_as role owned words.old n block_counts.now }
    ensures clean { length words.old ≡ state_size → Clean words.old → Clean words.new }
{
    let answer = library_console::calls::start(role, owned, words, n, block_counts);
    listing::answers::of(answer, 0)
}

// A process takes a checkpoint.
#[unsafe(no_mangle)]
pub extern "C" fn lemidrosy_console_checkpoint(
    role: u32,
    owned: u32,
    words: &mut [u16],
    process: usize,
    deleted: &mut [u16],
) -> u64
    ensures { let o = checkpoint_as role owned (run_of words.old) process deleted.old in
        (result ≡ checkpoint_code o.answer) × (deleted.new ≡ o.deleted) × Changes Err o words.old words.new }
{
    let answer = library_console::calls::checkpoint(role, owned, words, process, deleted);
    listing::answers::of(answer, 0)
}

// A process sends a message to another, which may be anyone's.
#[unsafe(no_mangle)]
pub extern "C" fn lemidrosy_console_send(
    role: u32,
    owned: u32,
    words: &mut [u16],
    sender: usize,
    receiver: usize,
) -> u64
    ensures { let o = send_as role owned (run_of words.old) sender receiver in
        (result ≡ send_code o.answer) × Changes Err o words.old words.new }
{
    let answer = library_console::calls::send(role, owned, words, sender, receiver);
    listing::answers::of(answer, 0)
}

// A message reaches its receiver.
#[unsafe(no_mangle)]
pub extern "C" fn lemidrosy_console_deliver(
    role: u32,
    owned: u32,
    words: &mut [u16],
    message: u32,
    deleted: &mut [u16],
) -> u64
    ensures { let o = deliver_as role owned (run_of words.old) message deleted.old in
        (result ≡ deliver_code o.answer o.rose) × (deleted.new ≡ o.deleted)
        × Changes Err o words.old words.new }
{
    let delivered = library_console::calls::deliver(role, owned, words, message, deleted);
    let answer = delivered.answer;
    listing::answers::of(answer, delivered.rose)
}

// A message is lost.
#[unsafe(no_mangle)]
pub extern "C" fn lemidrosy_console_lose(
    role: u32,
    owned: u32,
    words: &mut [u16],
    message: u32,
) -> u64
    ensures { let o = lose_as role owned (run_of words.old) message in
        (result ≡ lose_code o.answer) × Changes Err o words.old words.new }
{
    let answer = library_console::calls::lose(role, owned, words, message);
    listing::answers::of(answer, 0)
}

// The caller's members of the line for a failed set go to their places in the lent list; no other place of it changes.
#[unsafe(no_mangle)]
pub extern "C" fn lemidrosy_console_line(
    role: u32,
    owned: u32,
    words: &[u16],
    failed: u32,
    line: &mut [u16],
) -> u64
    ensures { let o = line_as role owned (run_of words.now) failed line.old in
        (result ≡ line_code o.answer) × (line.new ≡ o.line) }
{
    let answer = library_console::shown::line(role, owned, words, failed, line);
    listing::answers::of(answer, 0)
}

// Every process goes back to the line for a failed set, or the run is swept: for an operator alone.
#[unsafe(no_mangle)]
pub extern "C" fn lemidrosy_console_recover(
    role: u32,
    owned: u32,
    words: &mut [u16],
    failed: u32,
    deleted: &mut [u16],
    line: &mut [u16],
) -> u64
    ensures { let o = recover_as role owned (run_of words.old) failed deleted.old line.old in
        (result ≡ recover_code o.answer) × (deleted.new ≡ o.deleted) × (line.new ≡ o.line)
        × Changes Err o words.old words.new }
{
    let answer = library_console::calls::recover(role, owned, words, failed, deleted, line);
    listing::answers::of(answer, 0)
}

// The earliest consistent line through the named checkpoints: for an operator alone.
#[unsafe(no_mangle)]
pub extern "C" fn lemidrosy_console_earliest(
    role: u32,
    owned: u32,
    words: &[u16],
    named: &[u32],
    line: &mut [u16],
) -> u64
    ensures { let o = earliest_as role owned (run_of words.now) (named_in named.now) line.old in
        (result ≡ line_code o.answer) × (line.new ≡ o.line) }
{
    let answer = library_console::calls::earliest(role, owned, words, named, line);
    listing::answers::of(answer, 0)
}

// The checkpoints that the caller's processes keep go to the front of the lent list, as deletions do. The value says how many they are.
#[unsafe(no_mangle)]
pub extern "C" fn lemidrosy_console_list(
    role: u32,
    owned: u32,
    words: &[u16],
    deleted: &mut [u16],
) -> u64
    ensures { let o = list_as role owned (run_of words.now) deleted.old in
        (result ≡ list_code o.answer) × (deleted.new ≡ o.deleted) }
{
    let answer = library_console::list::list(role, owned, words, deleted);
    of_list(answer)
}

// How many checkpoints each process keeps: n numbers go to the front of the lent list.
#[unsafe(no_mangle)]
pub extern "C" fn lemidrosy_console_counts(
    role: u32,
    owned: u32,
    words: &[u16],
    line: &mut [u16],
) -> u64
    ensures { let o = counts_as role owned (run_of words.now) line.old in
        (result ≡ line_code o.answer) × (line.new ≡ o.line) }
{
    let answer = library_console::shown::counts(role, owned, words, line);
    listing::answers::of(answer, 0)
}
