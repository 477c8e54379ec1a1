// What `turns` promises over any sequence of calls, as theorems: specs/ has what they speak of, proofs/ the theorems. Fairness: `fair_so_far`, `fair`; that a table made from a new one is fit
// and which addresses it has: `made_fit`, `never_20`, `made_of_added`, `made_once`; what a fit table is: `fitness`; that 32 turns may be needed, and that there are such calls: `all_needed`, `calls_with`.
#![tactic(auto)]
