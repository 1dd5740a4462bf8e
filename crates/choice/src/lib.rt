// What is of no subject: a choice by a test, and the ways through tests; definitions and laws, no code.
#![tactic(auto)]
