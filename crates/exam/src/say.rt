// Text on standard output: words, numbers, and the shapes of a line. The first write that fails is reported on standard error.
use machines::streams::Streams;

// What is printed on. After a write that failed nothing more is written.
#[derive(Drop)]
pub(crate) struct Sheet {
    streams: Streams,
    lost: bool,
}

impl Sheet {
    pub(crate) fn new(streams: Streams) -> Sheet {
        Sheet {
            streams,
            lost: false,
        }
    }
}

// The first words of all, and whether they are written. If not, that is reported.
pub(crate) fn begin(sheet: &mut Sheet, words: &[u8]) -> bool {
    text(sheet, words);
    !sheet.lost
}

// Reports that a write failed, once.
fn report_failure(sheet: &mut Sheet, written: bool) {
    if !written {
        sheet.lost = true;
        sheet.streams.fail(b"exam: standard output");
    }
}

pub(crate) fn text(sheet: &mut Sheet, words: &[u8]) {
    if sheet.lost {
        return;
    }
    let written = sheet.streams.write(words);
    report_failure(sheet, written);
}

pub(crate) fn number(sheet: &mut Sheet, x: u64) {
    let mut digits = [0u8; 20];
    let end = listing::write_number(&mut digits, 0, x);
    text(sheet, &digits[..end]);
}

// A value after a space.
pub(crate) fn value(sheet: &mut Sheet, x: u64) {
    text(sheet, b" ");
    number(sheet, x);
}

pub(crate) fn end(sheet: &mut Sheet) {
    text(sheet, b"\n");
}

// What a line's values are of, as `vector 0:`.
pub(crate) fn heading(sheet: &mut Sheet, words: &[u8], x: u64) {
    text(sheet, words);
    value(sheet, x);
    text(sheet, b":");
}

// A line with one value.
pub(crate) fn fact(sheet: &mut Sheet, words: &[u8], number: u64, x: u64) {
    heading(sheet, words, number);
    value(sheet, x);
    end(sheet);
}

// What begins a case or a part of one: a word and a number, as `case 1`. `mark` is one of the wrong marks on past papers, `lost` and `sweep` are about what a
// recovery loses and one of an empty failed set, `disk` with its `step`s about the blocks on disk, `note` about a change request.
pub(crate) fn title(sheet: &mut Sheet, words: &[u8], number: u64) {
    text(sheet, words);
    value(sheet, number);
    end(sheet);
}

// The answer of a call: 0, or the refusal number.
pub(crate) fn answer(sheet: &mut Sheet, call: &[u8], refused: u8) {
    text(sheet, call);
    text(sheet, b":");
    value(sheet, refused as u64);
    end(sheet);
}
