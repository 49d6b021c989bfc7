// The cases of documents 01 and 02 that are proved: the table and the theorem, no code.
#![tactic(auto)]
