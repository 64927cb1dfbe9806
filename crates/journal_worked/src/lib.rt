// Blocks and saves of the journal, worked out as theorems by computation. No code.
#![tactic(auto)]
