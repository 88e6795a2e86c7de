// Demand 3: no pair of event lists shows the lock code. The theorem is about the machine; the calls here carry it to the built controller.
#![tactic(auto)]

pub mod compare;
