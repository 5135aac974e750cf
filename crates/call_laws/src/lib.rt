// Theory alone: what joins a step by value, and begin on the lists but the rows, to the rules over all lists (proofs/).
#![tactic(auto)]
