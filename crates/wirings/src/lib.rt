// Wirings that give each net one track. The definition in specs/ says what they are, the theorems in proofs/ that none has fewer tracks
// than the lower bound of document 002; there is no function here.
#![tactic(auto)]
