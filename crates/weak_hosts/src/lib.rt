// Theory alone: how a host reads the replies of the exported weak calls (specs/), and that what it so sees is a weak run (proofs/).
#![tactic(auto)]
