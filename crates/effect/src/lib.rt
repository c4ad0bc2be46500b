// What an instruction does, as a value: definitions and their laws. Nothing runs.

#![tactic(auto)]
