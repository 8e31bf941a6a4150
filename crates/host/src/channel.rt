// The channel between the initiator and the port.
use crate::message::Message;
use crate::queue::Queue;
use crate::show;
use page::Way;
use std::io;

// The messages under way in each direction, and the initiator's request limit.
#[derive(Drop)]
pub struct Channel {
    pub to_port: Queue,
    pub to_initiator: Queue,
    pub limit: u64,
}

impl Channel {
    pub fn new() -> Channel {
        Channel {
            to_port: Queue::new(),
            to_initiator: Queue::new(),
            limit: 0,
        }
    }

    // The initiator sends a message; a request takes one off its limit.
    pub fn submit(&mut self, rt: &impl Print, message: Message) -> io::Result<()> {
        show::message(rt, Way::Towards, message.bytes())?;
        if let Err(full) = self.to_port.push(message) {
            return println!(rt; "{full}");
        }
        if !message.is_request() {
            return Ok(());
        }
        if self.limit == 0 {
            return println!(rt; "a request without credit");
        }
        self.limit -= 1;
        Ok(())
    }

    // The port sends a message.
    pub fn answer(&mut self, rt: &impl Print, message: Message) -> io::Result<()> {
        if let Err(full) = self.to_initiator.push(message) {
            println!(rt; "{full}")?;
        }
        Ok(())
    }

    // The initiator receives the oldest message to it, which may raise its limit; it stays where it cannot be shown.
    pub fn receive(&mut self, rt: &impl Print) -> io::Result<()> {
        let Some(message) = self.to_initiator.front().copied() else {
            return Ok(());
        };
        show::message(rt, Way::From, message.bytes())?;
        self.to_initiator.pop();
        self.limit = self.limit.wrapping_add(message.delta() as u64);
        Ok(())
    }
}
