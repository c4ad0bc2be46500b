// One step, and the step repeated: definitions and their laws. Nothing runs.

#![tactic(auto)]
