// Demands 1, 2 and 3 of the C functions. There is no code here: specs/ says them, of every call that the C function's own contract allows; proofs/ has the
// theorems: demand 1 in Demand1, demand 2 in Following, demand 3 in Holds, turns in Turns, each answer's number and values in Numbered.
#![tactic(auto)]
