// Tables of runs, column by column: what a strip holds, what placing enters, and the search for a position. No function.
#![tactic(auto)]
