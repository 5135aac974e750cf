// Theory alone: the lent memory of a family of jobs, its lists named by data (specs/), and what every update keeps (proofs/).
#![tactic(auto)]
