// What is promised, sentence by sentence, and that it holds. There is no code here.
#![tactic(auto)]
