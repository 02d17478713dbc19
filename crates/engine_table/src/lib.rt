// A model as it lies in rooms that are cut to their lengths, and what the words in them say of its pairs. Laws, and the shapes of equations.
#![tactic(auto)]

pub mod shapes;
