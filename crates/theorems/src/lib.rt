// What follows from the definitions: the demands, and the laws that the code's proofs cite. Nothing is assumed, and there is no code here.
#![tactic(auto)]
