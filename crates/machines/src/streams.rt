// What a program holds of the system while it runs: the streams that it is started with, the file that it opened last, and why the last call failed that did. No contract
// can say what a stream brings or takes.
ghost use Rattle.laws.specs.Basics.{length};
ghost use Rattle.std.specs.Prelude.{◌≡◌, ◌≤◌, IfOk, IsTrue, None, pos};

use crate::Source;
use std::fs::File;
use std::io::{Print, Read, Stderr, Stdin, Stdout, Write};
use std::os::fd::AsRawFd;
use std::{io, str};

// The system's numbers of errors: a descriptor that no file has, what is not there or is no name, a pipe that nobody reads any more, a name that is too long, bytes that
// are no text.
const EBADF: i32 = 9;

pub(crate) const EINVAL: i32 = 22;

const EPIPE: i32 = 32;

pub(crate) const ENAMETOOLONG: i32 = 36;

pub(crate) const EILSEQ: i32 = 84;

// `error` is 0 until a call fails.
#[derive(Drop)]
pub struct Streams {
    input: Stdin,
    output: Stdout,
    errors: Stderr,
    file: Option<File>,
    error: i32,
}

impl Streams {
    // The streams of a program that has opened no file yet.
    pub fn new(input: Stdin, output: Stdout, errors: Stderr) -> Streams
        ensures no_file { result.file ≡ None }
        ensures no_error { result.error ≡ pos 0 }
    {
        Streams {
            input,
            output,
            errors,
            file: None,
            error: 0,
        }
    }

    // From now on this is why the last call failed that did.
    pub(crate) fn failed_by(&mut self, error: i32) {
        self.error = error;
    }

    // The same, by the error that std hands back.
    pub(crate) fn failed(&mut self, error: io::Error) {
        let number = error.raw_os_error().unwrap_or(EINVAL);
        self.failed_by(number);
    }

    // Keeps a file open, in the place of the one before it, and hands back its descriptor.
    pub(crate) fn keep(&mut self, file: File) -> i32 {
        let descriptor = file.as_raw_fd();
        self.file = Some(file);
        descriptor
    }

    // One read from standard input, or from the file that was opened last. Any other source has no file open.
    pub(crate) fn read(&mut self, source: Source, to: &mut [u8]) -> io::Result<usize>
        ensures { IfOk result (λ size. size ≤ length to.old) }
    {
        if source.0 == crate::STANDARD_INPUT {
            return self.input.read(to);
        }
        match &mut self.file {
            Some(file) if file.as_raw_fd() == source.0 => file.read(to),
            _ => Err(io::Error::from_raw_os_error(EBADF)),
        }
    }

    // Writes all of these bytes to standard output, and hands back whether they are written.
    pub fn write(&mut self, bytes: &[u8]) -> bool
        ensures { IsTrue result → self.new ≡ self.old }
    {
        match Print::write_all(&self.output, bytes) {
            Ok(()) => true,
            Err(error) => {
                self.failed(error);
                false
            }
        }
    }

    // Writes these bytes to standard error. Where that fails, nobody is left to be told.
    pub fn say(&self, bytes: &[u8]) {
        let _ = Print::write_all(&self.errors, bytes);
    }

    // Writes a line to standard error: these bytes, a colon and what the system says of the call that failed last. That nobody reads a pipe any more is not said: there a
    // program ends quietly.
    pub fn fail(&self, what: &[u8]) {
        if self.error == EPIPE {
            return;
        }
        let mut text = [0u8; 128];
        let size = put_error(self.error, &mut text);
        let said = &text[..size];
        self.say(what);
        self.say(b": ");
        self.say(without_number(said));
        self.say(b"\n");
    }
}

// Puts the text of an error at the front of `text`, and hands back how long it is.
fn put_error(error: i32, text: &mut [u8; 128]) -> usize
    ensures { result ≤ 128 }
{
    let mut left = &mut text[..];
    let _ = write!(left, "{}", io::Error::from_raw_os_error(error));
    let unused = left.len();
    128usize.saturating_sub(unused)
}

// std's text of an error without the number after it, which is in brackets.
fn without_number(text: &[u8]) -> &[u8] {
    match str::from_utf8(text) {
        Ok(words) => match words.split_once(" (os error ") {
            Some((said, _)) => said.as_bytes(),
            None => text,
        },
        Err(_) => text,
    }
}
