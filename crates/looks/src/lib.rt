// The walk of S-5: its bound, its clashes by index, and that it ends at the least free position. No function.
#![tactic(auto)]
