// What the calls promise: definitions and laws, in specs/. No code.
#![tactic(auto)]
