// Laws of the round trip: a table written as text and read again is the same (demand 2 of the letter). There is no code here.
#![tactic(auto)]
