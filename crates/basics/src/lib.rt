// Helpers of the mathematics that know nothing of tables: a choice by a decision, the largest and the sum of some numbers, lists told
// by a function. Definitions and laws, in specs/.
#![tactic(auto)]
