// Jobs worked out by the independent model of tests/, put through the definitions.
#![tactic(auto)]
