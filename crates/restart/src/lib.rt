#![tactic(auto)]
// The stretches between a sensor's restarts: definitions and laws, no code (02, 2.7).
