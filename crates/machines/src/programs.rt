// What several programs share: the number that a word is, and texts printed into a lent buffer.

// numbers.rt: the number that a word is
pub mod numbers;

// text.rt: words, lines with a number, the line of a refusal
pub mod text;
