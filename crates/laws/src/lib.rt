// No code: the laws in proofs/ are about the words that the definitions of `paper` are written in.

#![tactic(auto)]
