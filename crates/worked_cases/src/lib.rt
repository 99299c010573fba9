// The papers' worked cases as theorems, in specs/. No code.
#![tactic(auto)]
