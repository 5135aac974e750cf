// Theory alone: Algorithm 1 of source document 000 on its split lists and counters, and a weak job's lent memory read as its state (specs/); that
// every accepted weak step is the algorithm's (proofs/).
#![tactic(auto)]
