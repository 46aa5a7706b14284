// The effect of a list of steps, and how many rounds of a table run: definitions and laws, in specs/.
#![tactic(auto)]
