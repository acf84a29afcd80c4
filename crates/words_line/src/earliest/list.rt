// A lent list of named checkpoints, "each a process and an index": one function copies an element out, one walks the list and adds each element to the copy. Every list
// will do, however long.
ghost use Rattle.std.specs.Prelude.{◌≡◌, ◌+◌, ◌^◌, ◌≤◌, ◌<◌};
ghost use Rattle.laws.specs.Basics.{max, ltb, length, get_or, take, set, pick};
ghost use Rattle.model.specs.Words.{most_processes};
ghost use Rattle.words_line.specs.earliest.Copying.{no_named, nothing_copied_of, with_element_of, copy_of};

use model::{CheckpointIndex, Named, PROCESSES};

// What is copied out of a list: its first 16 elements, how many elements it has, and the greatest process that one of them names.
#[derive(Clone, Copy)]
pub struct Copied {
    pub named: [Named; PROCESSES],
    pub length: usize,
    pub process: usize,
}

// Before the first element.
fn nothing_copied() -> Copied
    ensures { result ≡ nothing_copied_of }
{
    let none = Named {
        process: 0,
        index: CheckpointIndex(0),
    };
    let named = [none; PROCESSES];
    Copied {
        named,
        length: 0,
        process: 0,
    }
}

fn greater(a: usize, b: usize) -> usize
    ensures { result ≡ max a b }
{
    if a < b { b } else { a }
}

// An element at its place, if that is one of the first 16.
fn placed(named: [Named; PROCESSES], at: usize, c: Named) -> [Named; PROCESSES]
    ensures { result ≡ pick (ltb at most_processes) (set named at c) named }
{
    if at < PROCESSES {
        let mut next = named;
        next[at] = c;
        return next;
    }
    named
}

// One element more.
fn with_element(copied: Copied, c: Named) -> Copied
    requires { copied.length + 1 < 2 ^ 64 }
    ensures { result ≡ with_element_of copied c }
{
    let at = copied.length;
    let first = copied.named;
    let named = placed(first, at, c);
    let process = greater(copied.process, c.process);
    Copied {
        named,
        length: at + 1,
        process,
    }
}

// Element k, copied out of the list.
fn element(list: &[Named], k: usize) -> Named
    requires { k < length list.now }
    ensures { result ≡ get_or list.now k no_named }
{
    list[k]
}

// The whole list, element by element.
pub fn copy_out(list: &[Named]) -> Copied
    ensures { result ≡ copy_of list.now }
{
    let mut copied = nothing_copied();
    let mut k = 0;
    while k < list.len() {
        copied = with_element(copied, element(list, k));
        k = k + 1;
    }
    copied
}

// The same of the first m elements of an array, which has 16.
fn copy_some(named: [Named; PROCESSES], m: usize) -> Copied
    requires { m ≤ most_processes }
    ensures { result ≡ copy_of (take m named) }
{
    let mut copied = nothing_copied();
    for k in 0..m {
        let c = named[k];
        copied = with_element(copied, c);
    }
    copied
}

// A list that stands at the front of an array.
pub fn copy_front(named: [Named; PROCESSES], length: usize) -> Copied
    ensures { result ≡ copy_of (take length named) }
{
    if length < PROCESSES {
        return copy_some(named, length);
    }
    copy_some(named, PROCESSES)
}
