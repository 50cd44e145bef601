//! Demand 3 of the running calls, from the promises that they carry; no running code.
#![tactic(auto)]
