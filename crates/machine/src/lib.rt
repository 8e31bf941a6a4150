// The two-ended machine of document 01 and demand 3, said of lists of events and shown for any code whose calls equal their definitions. There is no
// code here: specs/ has the machine, its events and the demand, proofs/Demand.antt the theorem.
#![tactic(auto)]
