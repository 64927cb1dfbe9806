// The tidy form of a frame, as definitions and laws.
#![tactic(auto)]
