// One function for each kind of request: the call of the system, and what it answered. No contract can say what a call reads or writes, so these lines have to be
// checked by reading. Each function also takes the request that it obeys, which says which bytes it is about, and ensures that the answer is what some numbers of the
// system's come to (`Comes` in `specs/Forms`): only these numbers are left open.
ghost use Rattle.std.specs.Prelude.{◌≡◌, ◌+◌, ◌≤◌};
ghost use Rattle.laws.specs.Basics.{length};
ghost use Rattle.machines.specs.Forms.{Around, read_answer, word_answer, done_answer, open_answer, Comes, Fits};

use crate::streams::{EILSEQ, EINVAL, ENAMETOOLONG, Streams};
use crate::{Answer, Obeyed, Request, Source};
use std::env::{Env, FillError};
use std::fs::File;
use std::rt::Files;
use std::{io, str};

// What a number that a read returned comes to, with the count of the bytes that it brought.
fn read_answer(got: isize, size: usize) -> Answer
    ensures { result ≡ read_answer got size }
{
    if got < 0 {
        return Answer::Failed;
    }
    if size == 0 {
        return Answer::End;
    }
    Answer::Bytes(size)
}

// What an error number comes to: 0 if all of a word is in the buffer.
fn word_answer(error: i32, size: usize) -> Answer
    ensures { result ≡ word_answer error size }
{
    if error == 0 {
        return Answer::Bytes(size);
    }
    Answer::Failed
}

fn done_answer(done: bool) -> Answer
    ensures { result ≡ done_answer done }
{
    if done {
        return Answer::Done;
    }
    Answer::Failed
}

// What a descriptor comes to: below 0 if the file could not be opened, and the source is as it was.
fn open_answer(opened: i32, source: Source) -> Obeyed
    ensures { result ≡ open_answer opened source }
{
    if opened < 0 {
        return Obeyed {
            answer: Answer::Failed,
            source,
        };
    }
    Obeyed {
        answer: Answer::Done,
        source: Source(opened),
    }
}

// How many words there are: std has them one by one, up to the first that is not there.
pub fn count<R: Env>(rt: &R, request: Request) -> Answer
    requires { request ≡ Request.Count }
    ensures { Fits request result }
{
    let mut none = [0u8; 0];
    for i in 0..usize::MAX {
        if let Err(FillError::NotPresent) = rt.arg(i, &mut none) {
            return Answer::Number(i);
        }
    }
    Answer::Number(usize::MAX)
}

pub fn argument<R: Env>(
    rt: &R,
    streams: &mut Streams,
    request: Request,
    i: usize,
    at: usize,
    most: usize,
    input: &mut [u8],
) -> Answer
    requires { (request ≡ Request.Argument i at most) × (at + most ≤ length input.old) }
    ensures { Around at most input.old input.new × Fits request result }
{
    let end = at + most;
    match rt.arg(i, &mut input[at..end]) {
        Ok(size) => word_answer(0, size),
        Err(error) => {
            let number = match error {
                FillError::NotPresent => EINVAL,
                FillError::TooLong => ENAMETOOLONG,
            };
            streams.failed_by(number);
            word_answer(number, 0)
        }
    }
}

// A file is opened for reading, if its name is text: std opens no other. It stays open until another is.
pub fn open<R: Files<File = File>>(
    rt: &R,
    streams: &mut Streams,
    request: Request,
    size: usize,
    out: &[u8],
    source: Source,
) -> Obeyed
    requires { (request ≡ Request.Open size) × (size ≤ length out.now) }
    ensures { Comes request source result }
{
    match opened(rt, &out[..size]) {
        Ok(file) => open_answer(streams.keep(file), source),
        Err(error) => {
            streams.failed(error);
            open_answer(-1, source)
        }
    }
}

fn opened<R: Files<File = File>>(rt: &R, name: &[u8]) -> io::Result<File> {
    match str::from_utf8(name) {
        Ok(path) => File::open(rt, path),
        Err(_) => Err(io::Error::from_raw_os_error(EILSEQ)),
    }
}

pub fn read(
    streams: &mut Streams,
    request: Request,
    at: usize,
    most: usize,
    input: &mut [u8],
    source: Source,
) -> Answer
    requires { (request ≡ Request.Read at most) × (at + most ≤ length input.old) }
    ensures { Around at most input.old input.new × Fits request result }
{
    let end = at + most;
    match streams.read(source, &mut input[at..end]) {
        Ok(size) => read_answer(size as isize, size),
        Err(error) => {
            streams.failed(error);
            read_answer(-1, 0)
        }
    }
}

pub fn write(streams: &mut Streams, request: Request, size: usize, out: &[u8]) -> Answer
    requires { (request ≡ Request.Write size) × (size ≤ length out.now) }
    ensures { Fits request result }
{
    done_answer(streams.write(&out[..size]))
}

pub fn say(streams: &mut Streams, request: Request, size: usize, out: &[u8]) -> Answer
    requires { (request ≡ Request.Say size) × (size ≤ length out.now) }
    ensures { Fits request result }
{
    streams.say(&out[..size]);
    Answer::Done
}

// `Streams::fail` adds what the system says of the call that failed.
pub fn fail(streams: &mut Streams, request: Request, size: usize, out: &[u8]) -> Answer
    requires { (request ≡ Request.Fail size) × (size ≤ length out.now) }
    ensures { Fits request result }
{
    streams.fail(&out[..size]);
    Answer::Done
}
