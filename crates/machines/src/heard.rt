// Answers as a machine takes them (`heard` in `specs/Machines`): one that does not fit what was asked for counts as failed.
ghost use Rattle.std.specs.Prelude.{◌≡◌, ◌+◌, ◌≤◌};
ghost use Rattle.laws.specs.Basics.{List, ℕ, length, pick};
ghost use Rattle.machines.specs.Machines.{heard_count, heard_word, heard_read, heard_done, is_number, Done, Failed};
ghost use Rattle.machines.specs.Forms.{answer_of, taken_of, Between};

use crate::Answer;

#[derive(Clone, Copy)]
pub enum Taken {
    Brought(usize),
    Ended,
    Failed,
}

// The answer to `Read`, of at most that many bytes.
pub fn read(answer: Answer, most: usize) -> Taken
    ensures { ((at : ℕ) (input : List ℕ) → at + most ≤ length input → heard_read most (answer_of answer at input) ≡ taken_of result at input) × Between result 1 most }
{
    match answer {
        Answer::Number(_) => Taken::Failed,
        Answer::Bytes(size) => {
            if size < 1 {
                return Taken::Failed;
            }
            if most < size {
                return Taken::Failed;
            }
            Taken::Brought(size)
        }
        Answer::End => Taken::Ended,
        Answer::Done => Taken::Failed,
        Answer::Failed => Taken::Failed,
    }
}

// The answer to `Argument`, of at most that many bytes.
pub fn word(answer: Answer, most: usize) -> Taken
    ensures { ((at : ℕ) (input : List ℕ) → at + most ≤ length input → heard_word most (answer_of answer at input) ≡ taken_of result at input) × Between result 0 most }
{
    match answer {
        Answer::Number(_) => Taken::Failed,
        Answer::Bytes(size) => {
            if most < size {
                return Taken::Failed;
            }
            Taken::Brought(size)
        }
        Answer::End => Taken::Failed,
        Answer::Done => Taken::Failed,
        Answer::Failed => Taken::Failed,
    }
}

// Whether `Open` or `Write` is done.
pub fn is_done(answer: Answer) -> bool
    ensures { (at : ℕ) (input : List ℕ) → heard_done (answer_of answer at input) ≡ pick result Done Failed }
{
    match answer {
        Answer::Number(_) => false,
        Answer::Bytes(_) => false,
        Answer::End => false,
        Answer::Done => true,
        Answer::Failed => false,
    }
}

// Whether `Count` is answered by this number.
pub fn is_number(answer: Answer, number: usize) -> bool
    ensures { (at : ℕ) (input : List ℕ) → result ≡ is_number (heard_count (answer_of answer at input)) number }
{
    match answer {
        Answer::Number(n) => n == number,
        Answer::Bytes(_) => false,
        Answer::End => false,
        Answer::Done => false,
        Answer::Failed => false,
    }
}
