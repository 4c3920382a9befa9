// Theorems only: how many runs an outline has at most. No function.
#![tactic(auto)]
