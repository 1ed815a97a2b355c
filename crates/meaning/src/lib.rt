// What a reader must believe: every definition stands in specs/, and there is no code here.
#![tactic(auto)]
