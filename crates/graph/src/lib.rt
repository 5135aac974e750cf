// Theory alone: the task graph of the lent tables, its checks, successors and lookup as definitions (specs/), and what
// is promised of them (proofs/).
#![tactic(auto)]
