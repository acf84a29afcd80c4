// The lines of a listing that belong to no record, and what every line shares: a line printed where there is room for it, the ends of a trace.
// Everything is pure on slices: the program only moves bytes.

// line.rt: a line printed
pub mod line;

// ends.rt: left-over bytes, a trace of no bytes
pub mod ends;
