// Laws over every public call and every C function: no second answer, a refusal changes nothing that was lent, and a C function returns 0 exactly if its call gave its answer. No function.
#![tactic(auto)]
