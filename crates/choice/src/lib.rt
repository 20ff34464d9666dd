// No code: specs/Choice.antt is what the definitions of the other crates choose by.
#![tactic(auto)]
