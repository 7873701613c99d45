// The sheet with each side's allowed sets clipped to what its pins leave each other: it has the same assignments, and the sets say
// whether there is one. The definition in specs/ says what the sheet is, the theorems in proofs/ the rest; there is no function here.
#![tactic(auto)]
