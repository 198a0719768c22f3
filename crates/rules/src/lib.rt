// Document 01 as definitions, and what is proved of them: no function.
#![tactic(auto)]
