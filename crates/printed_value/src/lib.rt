#![tactic(auto)]
// How a value is printed, in specs/: no code (02, 2.6).
