// The definitions of `meaning`, held to what the second program answers. No function.
#![tactic(auto)]
