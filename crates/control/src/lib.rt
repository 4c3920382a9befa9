// What the C functions answer, taken apart as include/vikelodu.h does it: document 01's numbers, and demand 3 over lists of calls. No function.
#![tactic(auto)]
