// The definitions of `reading` at a position of a slice: what code that holds the slice and an index goes by. Definitions and laws only.
#![tactic(auto)]
