// Theory alone: how a target is chosen and how rings are searched (specs/), with the laws by which everything else
// speaks of them (proofs/).
#![tactic(auto)]
