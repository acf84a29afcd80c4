// A script of console calls (document 02, Note 13): a first byte, the count of processes, and calls of eight bytes each, numbers with their high byte first.
// Which bytes are calls, and what each asks for, is defined in specs/Script.
ghost use Rattle.std.specs.Prelude.{◌≡◌, ◌+◌, ◌*◌, ◌<◌};
ghost use Rattle.machine_console.specs.script.Script.{role_of_def, operation_of_def, is_clear_of, call_in, call_of, asked, next_of};

use theory_roles::{Caller, Operation, Role};

// A call as a script asks for it.
#[derive(Clone, Copy)]
pub struct Call {
    pub caller: Caller,
    // the lent lists are one entry too short
    pub short: bool,
    pub operation: Operation,
    // of a checkpoint, of an earliest line; the sender; the count of a start
    pub process: u8,
    // the receiver, the message's number: three bytes
    pub argument: u32,
    // the failed set, the index of the named checkpoint: two bytes, and the one before them is zero
    pub low: u16,
}

// What the next bytes of a script are found to be: none, fewer than eight, eight that are no call, a call.
#[derive(Clone, Copy)]
pub enum Read {
    Ended,
    LeftOver,
    Malformed,
    Asks(Call),
}

// 0 operator, 1 owner, any other viewer, and 128 more where the lent lists are too short.
fn role_of(who: u8) -> Role
    ensures { result ≡ role_of_def who }
{
    if who == 0 {
        return Role::Operator;
    }
    if who == 128 {
        return Role::Operator;
    }
    if who == 1 {
        return Role::JobOwner;
    }
    if who == 129 {
        return Role::JobOwner;
    }
    Role::Viewer
}

fn operation_of(code: u8) -> Operation
    requires { code < 10 }
    ensures { result ≡ operation_of_def code }
{
    match code {
        0 => Operation::Checkpoint,
        1 => Operation::Send,
        2 => Operation::Deliver,
        3 => Operation::Lose,
        4 => Operation::Recover,
        5 => Operation::Line,
        6 => Operation::Earliest,
        7 => Operation::List,
        8 => Operation::Counts,
        _ => Operation::Start,
    }
}

// The bytes that the operation does not use are zero.
fn is_clear(operation: Operation, bytes: [u8; 8]) -> bool
    ensures { result ≡ is_clear_of operation bytes }
{
    let process = bytes[4] == 0;
    let high = bytes[5] == 0;
    let low = (bytes[6] == 0) & (bytes[7] == 0);
    match operation {
        Operation::Checkpoint => high & low,
        Operation::Send => true,
        Operation::Deliver => process,
        Operation::Lose => process,
        Operation::Recover => process & high,
        Operation::Line => process & high,
        Operation::Earliest => high,
        Operation::List => process & (high & low),
        Operation::Counts => process & (high & low),
        Operation::Start => high & low,
    }
}

// The number that two bytes are, and three.
fn two(high: u8, low: u8) -> u16
    ensures { result ≡ high * 256 + low }
{
    high as u16 * 256 + low as u16
}

fn three(high: u8, middle: u8, low: u8) -> u32
    ensures { result ≡ high * 65536 + middle * 256 + low }
{
    high as u32 * 65536 + middle as u32 * 256 + low as u32
}

fn call_in(operation: Operation, bytes: [u8; 8]) -> Call
    ensures { result ≡ call_in operation bytes }
{
    let who = bytes[0];
    let role = role_of(who);
    let owned = two(bytes[1], bytes[2]);
    let caller = Caller { role, owned };
    let short = 128 <= who;
    let process = bytes[4];
    let argument = three(bytes[5], bytes[6], bytes[7]);
    let low = two(bytes[6], bytes[7]);
    Call {
        caller,
        short,
        operation,
        process,
        argument,
        low,
    }
}

// What eight bytes ask for, if they are a call.
fn call_of(bytes: [u8; 8]) -> Read
    ensures { result ≡ asked (call_of bytes) }
{
    let code = bytes[3];
    if 9 < code {
        return Read::Malformed;
    }
    let operation = operation_of(code);
    if is_clear(operation, bytes) {
        let call = call_in(operation, bytes);
        return Read::Asks(call);
    }
    Read::Malformed
}

// What the first `buffered` of eight bytes are, where no more are left of the script if there are fewer.
pub fn next_of(buffered: usize, bytes: [u8; 8]) -> Read
    ensures { result ≡ next_of buffered bytes }
{
    if buffered == 0 {
        return Read::Ended;
    }
    if buffered < 8 {
        return Read::LeftOver;
    }
    call_of(bytes)
}
