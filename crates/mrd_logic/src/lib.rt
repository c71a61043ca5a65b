#![tactic(auto)]
// Small shared logic, in specs/ alone: choices, lists of checks and which of them decides, and the one shape of
// an answer. There is no code here.
