// Definitions and laws alone: where each string, block and run of a record stands in its sentence.
#![tactic(auto)]
