// All that is promised, on one page: proofs/Promises. No function.
#![tactic(auto)]
