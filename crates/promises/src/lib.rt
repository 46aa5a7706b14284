// What the answers to "rounds" and "plan" say together: laws only, in specs/.
#![tactic(auto)]
