// Recorded histories and the language are one: theorems over the definitions that the contracts cite, and no code.
#![tactic(auto)]
