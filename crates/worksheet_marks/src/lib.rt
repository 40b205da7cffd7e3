// Which lines of a sheet have which mark, rule by rule: definitions and theorems, no function.
#![tactic(auto)]
