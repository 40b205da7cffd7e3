// Error-free transformations of binary floating-point numbers as definitions and theorems. Step sheets are built of them.
#![tactic(auto)]
