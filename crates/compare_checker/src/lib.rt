// CHECK_NEW, PIECE and CLOSE: a log checked in pieces.
#![tactic(auto)]

mod opcode;

pub use opcode::serve;
