#![tactic(auto)]
// What the promises of the stream come to, as theorems alone: accepted exactly, one cut, and one set of bytes for one meaning.
