// What follows from the rules: the owner's three demands, proved of the definitions in `rules`. There is no code here;
// specs/ has the theorems.
#![tactic(auto)]
