#![tactic(auto)]

// What the permutation of STRIBOBr2 is, and what is true of it. No code of its own.
