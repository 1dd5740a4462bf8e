// The three demands on one page, and that they hold: definitions and theorems, and no code.
#![tactic(auto)]
