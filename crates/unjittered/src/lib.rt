// Theorems only (proofs/): with every jitter at 0, all earlier answers stand (document 02, item 8), and what was signed off for edition 1 of the file stands (item 9).

#![tactic(auto)]
