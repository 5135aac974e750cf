// Theory alone: how a host reads the replies of the exported calls (specs/), and that what it so sees is a run (proofs/).
#![tactic(auto)]
