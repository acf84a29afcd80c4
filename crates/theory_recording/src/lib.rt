// Notes 9 and 10 of document 02: events with their records, what a recorder writes, and what a replay of it gives. The definitions are in specs/, the theorems
// about them in proofs/.

#![tactic(auto)]

// spacing.rt: document 02, Note 10, "Trying a checkpoint spacing": a trial is one simulation that it asks for
pub mod spacing;
