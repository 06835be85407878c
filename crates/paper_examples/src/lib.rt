// No code: the paper's starred examples, computed and proved over the definitions.
#![tactic(auto)]
