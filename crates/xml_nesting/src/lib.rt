// The order of an element table: definitions and laws only.
#![tactic(auto)]
