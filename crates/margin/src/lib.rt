// Demand 3: how the printed figures stand to the exact ones.
#![tactic(auto)]
