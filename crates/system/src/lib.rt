// Theory alone: the system of workers, items and stages that every run is a run of (specs/), and what each step keeps (proofs/).
#![tactic(auto)]
