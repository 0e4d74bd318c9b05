// Defines the number and the value of a step's answer as functions of the step's input, for the contract of the public step. All of it is in specs/;
// there is no code.
#![tactic(auto)]
