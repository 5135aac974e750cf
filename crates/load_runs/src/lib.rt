// Theory alone: load windows of a run's memory (specs/), and what is promised of them (proofs/).
#![tactic(auto)]
