// Tests of rows of 16 words, as a sound state asks for them. What has to be zero is gathered with `|` in one word, and there is no exit within a row: a
// processor then tests several words at a time.
ghost use Rattle.std.specs.Prelude.{◌≡◌, ◌&&◌, ◌-◌};
ghost use Rattle.laws.specs.Basics.{eqb, leb, get_or, pick};
ghost use Rattle.std.specs.Int.Bits.{bit_or};
ghost use Rattle.laws.specs.{Lists.table, Search.all_below, Search.any_below};
ghost use Rattle.model.specs.Words.{entry, most_processes};

use model::{Interval, PROCESSES};

// A word with all its bits set.
const ONES: u16 = 65535;

// By how much x is above its limit.
fn excess(x: u16, limit: u16) -> u16
    ensures { result ≡ x - limit }
{
    if limit < x { x - limit } else { 0 }
}

// No entry of a vector is above its limit.
pub fn is_within(vector: [Interval; PROCESSES], limits: [Interval; PROCESSES]) -> bool
    ensures { result ≡ all_below most_processes (λ f. leb (entry vector f).0 (entry limits f).0) }
{
    let mut over: u16 = 0;
    for f in 0..PROCESSES {
        let x = vector[f];
        let limit = limits[f];
        let more = excess(x.0, limit.0);
        over = over | more;
    }
    over == 0
}

// What is over the limits, with one vector more: a word stays 0 where the entry is within its limit.
pub fn over_by(
    over: [u16; PROCESSES],
    vector: [Interval; PROCESSES],
    limits: [Interval; PROCESSES],
) -> [u16; PROCESSES]
    ensures { result ≡ table most_processes (λ f. bit_or (get_or over f 0) ((entry vector f).0 - (entry limits f).0)) }
{
    let mut then = over;
    for f in 0..PROCESSES {
        let x = vector[f];
        let limit = limits[f];
        let more = excess(x.0, limit.0);
        then[f] = over[f] | more;
    }
    then
}

// By how much each word of a row is above its limit.
pub fn row_over(row: [u16; PROCESSES], limits: [u16; PROCESSES]) -> [u16; PROCESSES]
    ensures { result ≡ table most_processes (λ f. get_or row f 0 - get_or limits f 0) }
{
    let mut over = row;
    for f in 0..PROCESSES {
        let more = excess(row[f], limits[f]);
        over[f] = more;
    }
    over
}

fn ones_unless_zero(x: u16) -> u16
    ensures { result ≡ pick (eqb x 0) 0 65535 }
{
    if x == 0 { 0 } else { ONES }
}

// The limits of a row that has to be 0 wherever a vector is.
pub fn limits_where(vector: [Interval; PROCESSES]) -> [u16; PROCESSES]
    ensures { result ≡ table most_processes (λ f. pick (eqb (entry vector f).0 0) 0 65535) }
{
    let mut limits = [0u16; PROCESSES];
    for f in 0..PROCESSES {
        let x = vector[f];
        let limit = ones_unless_zero(x.0);
        limits[f] = limit;
    }
    limits
}

fn ones_if_same(a: u16, b: u16) -> u16
    ensures { result ≡ pick (eqb a b) 65535 0 }
{
    if a == b { ONES } else { 0 }
}

// Some word of a row is x.
pub fn is_among(row: [u16; PROCESSES], x: u16) -> bool
    ensures { result ≡ any_below most_processes (λ f. eqb (get_or row f 0) x) }
{
    let mut any: u16 = 0;
    for f in 0..PROCESSES {
        let here = ones_if_same(row[f], x);
        any = any | here;
    }
    any != 0
}

fn unless_same(kept: u16, a: u16, b: u16) -> u16
    ensures { result ≡ pick (eqb a b) 0 kept }
{
    if a == b { 0 } else { kept }
}

// What is left of a row where another row is x: 0 there.
pub fn without(left: [u16; PROCESSES], row: [u16; PROCESSES], x: u16) -> [u16; PROCESSES]
    ensures { result ≡ table most_processes (λ f. pick (eqb (get_or row f 0) x) 0 (get_or left f 0)) }
{
    let mut then = left;
    for f in 0..PROCESSES {
        let here = unless_same(left[f], row[f], x);
        then[f] = here;
    }
    then
}

// Every word of a row is 0.
pub fn is_zero(row: [u16; PROCESSES]) -> bool
    ensures { result ≡ all_below most_processes (λ f. eqb (get_or row f 0) 0) }
{
    let mut any: u16 = 0;
    for f in 0..PROCESSES {
        any = any | row[f];
    }
    any == 0
}

// Every word of two rows is 0.
pub fn are_zero(a: [u16; PROCESSES], b: [u16; PROCESSES]) -> bool
    ensures { result ≡ all_below most_processes (λ f. eqb (get_or a f 0) 0 && eqb (get_or b f 0) 0) }
{
    let mut any: u16 = 0;
    for f in 0..PROCESSES {
        any = any | (a[f] | b[f]);
    }
    any == 0
}
