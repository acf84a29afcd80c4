// The surviving history of document 01, and causal precedence and consistency in it by the messages alone: definitions in specs/. The run as functions, and what
// holds of it, is in proofs/: no state of the library occurs there.

#![tactic(auto)]
