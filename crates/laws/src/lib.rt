// General laws about lists, bounded loops and tests, in specs/. No function.

#![tactic(auto)]
