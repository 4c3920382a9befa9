// What an outline draws twice: definitions, the test, and that turns keep it. No function.
#![tactic(auto)]
