// Theory alone: orders that a graph allows, exchanges of neighbours (specs/), and that any two allowed orders are joined by them (proofs/).
#![tactic(auto)]
