//! How far a server came: its epochs, what each of their steps sent, which steps it heard, and what
//! a notice was told of it. Definitions, and laws that the rounds of a server stand on.
#![tactic(auto)]
