#![tactic(auto)]

// Line and its reader undo each other (document 02, Job 1): what Line wrote is read back, and Line writes again what was read. There is no code here:
// the theorems are in proofs/.
