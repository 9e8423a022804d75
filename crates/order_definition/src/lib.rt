// What the order of a pattern's particles is (rules, module 3), as a definition, with its laws. There is no code.
#![tactic(auto)]
