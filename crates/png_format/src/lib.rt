// A PNG file of indexed colour. The definitions are in specs/. No code.
#![tactic(auto)]
