// Theory alone: what the runs of every family promise in the same words, of what a run shows (specs/), and what is proved once for all (proofs/).
#![tactic(auto)]
