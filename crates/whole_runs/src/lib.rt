// What each call's outcome is, lists of calls with their surviving history, and demand 3 of document 01, "Right over whole runs": the definitions are in specs/, the
// theorems about them in proofs/. The rules of one call, and what they are proved of, are in the crate model.

#![tactic(auto)]

// "The program ends after record 1,000,000,000 and reads nothing past it." (most_records in specs/Listing)
pub const MOST_RECORDS: u64 = 1000000000;
