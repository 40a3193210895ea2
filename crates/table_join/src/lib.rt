// The joining of two tables files. Definitions and laws alone: no code joins files.
#![tactic(auto)]
