// Theory alone: Algorithm 1 of source document 001 on its split lists and counters, the reading of the lent memory as its
// state (specs/), and that every accepted step is the algorithm's (proofs/).
#![tactic(auto)]
