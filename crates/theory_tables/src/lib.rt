// Tables of cases with their results, in specs/: the exam sheet's, the example trace, the disks of Note 5, every number, the lines of Note 8. That each holds of the
// definitions of `model` and `whole_runs` is computed in proofs/.

#![tactic(auto)]
