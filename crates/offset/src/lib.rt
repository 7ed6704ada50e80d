// A shared offset drops out (document 02, Job 7). There is no code here: specs/Shifted.antt says what shifting is and how the numbers move, and
// proofs/ has the theorems, on tracks, on hire blocks and on the common view report.
#![tactic(auto)]
