// What is promised of paths; no function.
#![tactic(auto)]
