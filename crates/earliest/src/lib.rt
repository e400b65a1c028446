// The second engine's theory (document 02, request 12): from which cycle on a head breaks no rule while nothing goes, and the run by jumps. The
// theorem is in proofs/Jump; there is no code.
#![tactic(auto)]
