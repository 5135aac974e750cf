// Theory alone: load windows as a function of the lent lists (specs/), and what is promised of them (proofs/).
#![tactic(auto)]
