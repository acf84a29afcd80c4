// A reader of a trace: "A reader of a trace carries the lent trace together with the count of records taken. It hands a record on as the part
// of the trace with its four bytes, not as a copy." It is an iterator over the records. Every trace and every count will do.
ghost use Rattle.std.specs.Prelude.{◌≡◌};
ghost use Rattle.std.specs.Iterator.{YieldsFirstRef, item_count};
ghost use Rattle.trace.specs.reader.Reading.{record_after_of, record_left_of, new_reader, reader_after};
ghost use Rattle.trace.specs.reader.Whole.{parts_left};

// The whole trace, first byte included, and how many of its records were taken.
#[derive(Clone, Copy)]
pub struct Reader<'a> {
    pub trace: &'a [u8],
    pub taken: usize,
}

impl<'a> Reader<'a> {
    // A reader that has taken nothing.
    #[tactic(auto, unfolding(crate::specs::reader::Reading::new_reader))]
    pub fn open(trace: &'a [u8]) -> Reader<'a>
        ensures { result ≡ new_reader trace.entry }
    {
        Reader { trace, taken: 0 }
    }

    // Whether a whole record is left after the first byte and the records taken.
    #[tactic(auto, using(crate::proofs::reader::Room::room_by), unfolding(crate::specs::reader::Reading::record_left_of))]
    pub fn has_record(self) -> bool
        ensures { result ≡ record_left_of self.entry.trace.now self.entry.taken }
    {
        self.taken.saturating_mul(4).saturating_add(5) <= self.trace.len()
    }

    // The record that is next, as the part of the trace with its four bytes; the empty part where none is left.
    #[tactic(auto, using(crate::proofs::reader::Room::record_by), unfolding(crate::specs::reader::Reading::record_after_of))]
    pub fn next_record(self) -> &'a [u8]
        ensures { result.now ≡ record_after_of self.entry.trace.now self.entry.taken }
    {
        crate::record_part(self.trace, self.taken.saturating_mul(4).saturating_add(1))
    }

    // The reader after that record: the count is one higher, or as it was where no record is left.
    #[tactic(auto, using(crate::proofs::reader::Room::room_left), unfolding(crate::specs::reader::Reading::reader_after, crate::specs::reader::Reading::taken_after))]
    pub fn advance(self) -> Reader<'a>
        ensures { result ≡ reader_after self.entry }
    {
        if self.has_record() {
            Reader {
                trace: self.trace,
                taken: self.taken + 1,
            }
        } else {
            self
        }
    }
}

impl<'a> Iterator for Reader<'a> {
    type Item = &'a [u8];

    ghost next_gives = { YieldsFirstRef parts_left };

    ghost remaining = { item_count parts_left };

    fn next(&mut self) -> Option<&'a [u8]> {
        let reader = *self;
        if !reader.has_record() {
            return None;
        }
        *self = reader.advance();
        Some(reader.next_record())
    }
}

// The same for a caller that has a trace and a count: by way of the reader.
pub fn record_left(trace: &[u8], taken: usize) -> bool
    ensures { result ≡ record_left_of trace.now taken }
{
    Reader { trace, taken }.has_record()
}

pub fn record_after<'a>(trace: &'a [u8], taken: usize) -> &'a [u8]
    ensures { result.now ≡ record_after_of trace.now taken }
{
    Reader { trace, taken }.next_record()
}
