// No code: specs/ has document 01's twelve examples as rows of one table, and proofs/ the theorem that every row holds.
#![tactic(auto)]
