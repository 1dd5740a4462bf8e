// No code: laws over the calls of the library for C.
#![tactic(auto)]
