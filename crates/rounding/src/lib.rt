// How a fraction is rounded to a binary32: definitions and their laws. Nothing runs.

#![tactic(auto)]
