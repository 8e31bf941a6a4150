// The port's owner, for the programs that show and test the port: each call and each RDMA operation is shown as it goes by, and what the port writes
// goes to the initiator.
#![tactic(auto)]

mod buffers;
mod logins;
mod requests;

ghost use Rattle.std.specs.Prelude.{◌≤◌, length};

use host::channel::Channel;
use host::message::Message;
use host::show;
pub use logins::show_division;
use srp::{Answer, limits};
use std::io;
use words::{PORT, STORE};

// What the port writes in a call.
const WRITTEN: usize = limits::LONGEST_WRITTEN_MESSAGE as usize;

// What a login here agrees on: messages as long as can be, and both formats.
const AGREED: u32 = limits::LONGEST_AGREED;

const FORMATS: u32 = limits::BOTH_FORMATS;

// The port, the store that it is lent, and the channel between it and an initiator.
#[derive(Drop)]
pub struct Session {
    port: [u64; PORT],
    store: [u8; STORE],
    channel: Channel,
}

// The first n bytes, none where there are fewer.
fn first(bytes: &[u8], n: usize) -> &[u8]
    ensures { length result.now ≤ length bytes.now }
{
    bytes.get(..n).unwrap_or(&[])
}

impl Session {
    // A closed port, and nothing under way.
    pub fn new() -> Session {
        Session {
            port: [0; PORT],
            store: [0; STORE],
            channel: Channel::new(),
        }
    }

    // The initiator sends a message.
    pub fn submit(&mut self, rt: &impl Print, message: Message) -> io::Result<()> {
        self.channel.submit(rt, message)
    }

    // What a call wrote goes to the initiator.
    fn send(&mut self, rt: &impl Print, written: &[u8; WRITTEN], n: usize) -> io::Result<()> {
        if n == 0 {
            return Ok(());
        }
        self.channel.answer(rt, Message::copy_of(first(written, n)))
    }

    // The same, and a refusal is shown.
    fn conclude(&mut self, rt: &impl Print, written: &[u8; WRITTEN], a: Answer) -> io::Result<()> {
        show::refusal(rt, "   ", a.reply)?;
        self.send(rt, written, a.wrote)
    }
}
