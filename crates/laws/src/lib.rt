#![tactic(auto)]

// Laws alone: what is true of lists, splices, choosers, xor and tables, whatever they mean in a layer. No code of its own.
