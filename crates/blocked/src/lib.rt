// What blocking is to starts, to tolerances and to lengths, proved on the definitions alone: see proofs/.

#![tactic(auto)]
