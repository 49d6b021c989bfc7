// Laws for functions over a slice of records that a caller lends, for any record. There is no function here: the words
// and their laws are in specs/, and the crates that lend records cite them.
#![tactic(auto)]
