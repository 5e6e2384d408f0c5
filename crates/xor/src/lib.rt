// Definitions and laws alone: addition of elements is the language's `^`.

#![tactic(auto)]
