// The demands, restated for the public functions: reading, writing and reading back, what C's writers refuse, and that no input leaves a
// choice of answers. Definitions in specs/, theorems in proofs/. No code.
#![tactic(auto)]
