// No code: the walks by hand in proofs/, for functions that make a struct with a reference in it and for those that take one apart.
// Nothing is proved through them any more: they stand as theorems that docs/ names (`hands`, `takes_apart`).
#![tactic(auto)]
