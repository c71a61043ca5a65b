#![tactic(auto)]
// When the member `refusal` of a C struct is 0: laws alone, in specs/.
//
// Assumes nothing.
