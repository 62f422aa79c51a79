// Whole sequences of commands: theorems alone, no functions. specs/Demand.antt states them, proofs/ proves them.
#![tactic(auto)]
