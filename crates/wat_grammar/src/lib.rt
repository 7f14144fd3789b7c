// Definitions: the text of modules, by its tokens and its grammar.
#![tactic(auto)]
