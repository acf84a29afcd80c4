// What a replay is given: the words that its program is started with, and the buffer that the blocks of a trace are read into. Everything is pure on slices: the
// program only moves bytes.

// arguments.rt: the words that the program is started with
pub mod arguments;

// buffer.rt: the buffer that blocks are read into
pub mod buffer;
