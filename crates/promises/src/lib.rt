#![tactic(auto)]
// What is promised of the receiver, as one type: no code (specs/Promised.antt).
