// Theorems about the definitions of `meaning`: what each policy keeps, and that no answer names the wrong slot. No function.
#![tactic(auto)]
