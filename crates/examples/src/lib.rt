// Examples of the lower layer's definitions, computed: no functions. specs/Shift.antt has document 01's worked example.
#![tactic(auto)]
