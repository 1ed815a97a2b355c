// Theorems over the definitions of `meaning`: they stand in proofs/, Index.antt lists the final statements, and there is no code here.
#![tactic(auto)]
