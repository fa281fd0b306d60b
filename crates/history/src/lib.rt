// What is proved of all calls together, and the cases of the rules, stand in specs/. There is no code here.
#![tactic(auto)]
