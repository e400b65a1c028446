// What the three demands and the requests come to, said and proved of the public calls. There is no code here.
#![tactic(auto)]
