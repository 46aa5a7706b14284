// The starred samples of 01 and N1 follow from the definitions. All of it is in specs.
#![tactic(auto)]
