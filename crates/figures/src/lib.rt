// Document 01's starred figures: a table, and one statement over it. There is no code here.
#![tactic(auto)]
