#![tactic(auto)]
// What the rules of the stream mean, as theorems alone: the cut, acceptance, refusal, the order and the cursor's steps.
