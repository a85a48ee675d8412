// The first plug-in: demand 3 of the order, over the bench's own events. There is no code here, only
// what is stated (specs) and proved (proofs).

#![tactic(auto)]
