// Notes 12 and 14 of document 02. "Two halves of one run": what the merge of two halves is, and that any two orders of them agree. "Nothing more could go": what a
// process sees of a run, and the run that it cannot tell from this one. The definitions are in specs/, the theorems about them in proofs/.

#![tactic(auto)]
