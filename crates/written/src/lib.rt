// What the writer writes the reader accepts: specs/ says which actions a change list is written as, proofs/ that replay takes them.
#![tactic(auto)]
