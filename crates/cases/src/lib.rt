// Document 01's cases as a single proved table (specs/Table.antt, proofs/Table.antt), and the largest record.
#![tactic(auto)]
