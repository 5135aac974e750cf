// The desk program's run and what it prints, as definitions; the run always finishes. There is no code here.
#![tactic(auto)]
