//! The examples of document 01 that are proved of its definitions; no running code.
#![tactic(auto)]
