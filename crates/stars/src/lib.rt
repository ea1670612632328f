// Document 01's starred situations: definitions, and one law about them. There is no code here.
#![tactic(auto)]
