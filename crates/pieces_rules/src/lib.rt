// A stream that arrives in pieces (02, P10), as definitions and laws.
#![tactic(auto)]
