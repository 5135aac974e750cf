// Theory alone: the copies of a graph's tasks as items of the system (specs/), and what the system's laws say of them (proofs/).
#![tactic(auto)]
