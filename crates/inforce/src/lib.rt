// Delays by date (document 02, Job 9): a lookup answers the set of the latest start not after the date, and an append leaves an accepted store with the
// old entries and the new one. There is no code here: the theorems are in proofs/.
#![tactic(auto)]
