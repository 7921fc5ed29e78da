// The starred bench samples of document 01, as theorems over the definitions, in specs/. No code.

#![tactic(auto)]
