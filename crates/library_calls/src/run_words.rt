// A state by value as words, and words as a state by value: for a call that takes a state and returns one, and is made on words in between.

// fill.rt: words are filled from a state, which says whether the state fits its words
pub mod fill;

// read.rt: the state that words stand for
pub mod read;
