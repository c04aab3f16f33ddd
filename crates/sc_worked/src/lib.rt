//! Worked cases: what the definitions of hosts and their net say on whole runs, computed from the
//! text of a script to the text of what is sent.
#![tactic(auto)]
