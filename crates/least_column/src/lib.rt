// The least column in which the last pins can stand, going by sets and orders alone. The definitions in specs/ say what it is, the
// theorems in proofs/ what it says of the least density and of the best assignment; there is no function here.
#![tactic(auto)]
