#![tactic(auto)]
// The customer's three demands, as theorems about the public calls; and that words past the room do not matter. There is no code here: specs/ says what is promised, proofs/ shows it.
