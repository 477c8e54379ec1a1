// Demand 3, as theorems: specs/ has what they speak of, proofs/ the theorems. Of calls of the receiver's functions: `delivered_by_calls`, `completed_by_calls`,
// of one file cut in two ways `one_file_by_calls`, and that the limit is kept, `limit_kept`; of the step that their contracts cite: `delivered`, `completed`,
// `one_file`. That there is such a file, and such calls: `sent`, `sent_whole`, `calls_with`, `two_cuts_lem`.

#![tactic(auto)]
