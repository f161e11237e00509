// What a directory keeps, as a value: its places, its shape, what rules a to h say of it, and what each policy assumes. No function.
#![tactic(auto)]
