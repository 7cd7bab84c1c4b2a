// Both round trips of a cabinet file, proved on the definitions alone: see proofs/Trips.antt.
#![tactic(auto)]
