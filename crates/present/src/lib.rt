// PRESENT-80 and its masked program: definitions and laws, no code.

#![tactic(auto)]
