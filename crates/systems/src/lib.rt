// The laws of systems of Boolean equations in blocks: that the solution exists and is one only, that shifting and settling
// move it, what marks and visits say, and that the step machine, also on lists, does just that. There is no code here; the
// crates with code above it cite these laws as proof that their answers are the rule's.
#![tactic(auto)]
