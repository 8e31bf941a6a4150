// A small initiator, for the programs that show and test the port: the messages that it sends, the channel between it and the port with a queue each
// way, and the lines that the programs print.
#![tactic(auto)]

pub mod channel;
pub mod message;
pub mod paper;
pub mod queue;
pub mod show;
