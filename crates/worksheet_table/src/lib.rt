// The step sheet a second time, as a table of programs, and that both accounts of its rules agree: definitions and theorems, no function.
#![tactic(auto)]
