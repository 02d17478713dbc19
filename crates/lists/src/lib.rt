// Lists, tests, sums and smallest sets: what belongs to no subject. There is no code here; specs/ has the definitions
// (Lists, Smallest) and their laws.
#![tactic(auto)]
