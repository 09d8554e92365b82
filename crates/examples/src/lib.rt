// No code: specs/ has tables that take longer to compute than those of definitions (lists and pages, slices afterwards, large boards), proofs/ that they hold.
#![tactic(auto)]
