// Requests and answers as numbers, for callers that have no enums.
ghost use Rattle.std.specs.Prelude.{◌≡◌, ◌∷◌, ◌≤◌};
ghost use Rattle.laws.specs.Basics.{[], length, sets};
ghost use Rattle.machines.specs.Packed.{packed, unpacked};

use crate::{Answer, Request};

fn put_four(numbers: &mut [u64], kind: u64, size: usize, place: usize, word: usize)
    requires { 4 ≤ length numbers.old }
    ensures { numbers.new ≡ sets numbers.old 0 (kind ∷ size ∷ place ∷ word ∷ []) }
{
    numbers[0] = kind;
    numbers[1] = size as u64;
    numbers[2] = place as u64;
    numbers[3] = word as u64;
}

// The four numbers of a request.
pub fn pack(request: Request, numbers: &mut [u64])
    requires { 4 ≤ length numbers.old }
    ensures { numbers.new ≡ sets numbers.old 0 (packed request) }
{
    match request {
        Request::Stop => put_four(numbers, 0, 0, 0, 0),
        Request::Read(at, most) => put_four(numbers, 1, most, at, 0),
        Request::Write(size) => put_four(numbers, 2, size, 0, 0),
        Request::Say(size) => put_four(numbers, 3, size, 0, 0),
        Request::Fail(size) => put_four(numbers, 4, size, 0, 0),
        Request::Count => put_four(numbers, 5, 0, 0, 0),
        Request::Argument(i, at, most) => put_four(numbers, 6, most, at, i),
        Request::Open(size) => put_four(numbers, 7, size, 0, 0),
    }
}

// The answer that two numbers stand for.
pub fn unpack(kind: u64, number: usize) -> Answer
    ensures { result ≡ unpacked kind number }
{
    if kind == 1 {
        return Answer::Bytes(number);
    }
    if kind == 2 {
        return Answer::End;
    }
    if kind == 3 {
        return Answer::Done;
    }
    if kind == 4 {
        return Answer::Number(number);
    }
    Answer::Failed
}
