// Laws of the definitions: tests read as facts, turns, the order of positions, question 5. No function.
#![tactic(auto)]
