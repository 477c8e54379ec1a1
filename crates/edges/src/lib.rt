// 01's edges marked P, as one table with one statement. No code.

#![tactic(auto)]
