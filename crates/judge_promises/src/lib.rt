// No code: demands 2 and 3, as laws about the check and the merge.
#![tactic(auto)]
