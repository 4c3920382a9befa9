// Theorems only: sheets, the bytes of their records, their chains, and the round trip. No function.
#![tactic(auto)]
