// What a float's bits stand for: definitions and their laws. Nothing runs.

#![tactic(auto)]
