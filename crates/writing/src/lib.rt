// What is written, as definitions and laws.
#![tactic(auto)]
