// No code: specs/ has lists and tests, what all other definitions are written with, and proofs/ their laws. Nothing here is of trays.
#![tactic(auto)]
