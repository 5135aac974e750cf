// Theory alone: what the proofs share about lists of items and sums over places. See specs/ and proofs/.
#![tactic(auto)]
