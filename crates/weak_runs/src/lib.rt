// Theory alone: whole runs of a weak job (specs/), and what is promised of every list of their calls (proofs/).
#![tactic(auto)]
