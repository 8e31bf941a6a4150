// The channel's beginning and its end.
use crate::{AGREED, FORMATS, Session, WRITTEN};
use host::message::Message;
use host::paper::IDENTIFIER;
use host::show;
use srp::{Answer, Settings};
use std::io;

// Pieces of up to so many bytes.
const PIECE: u32 = 512;

// The port's identifier.
const OWN: [u8; IDENTIFIER] = *b"a proved target.";

// The login of an initiator that knows the port's identifier.
fn request() -> Message {
    Message::login(1, AGREED, FORMATS as u16, &OWN)
}

// How the values of byte 5 divide with the formats that a login here agrees on.
pub fn show_division(rt: &impl Print) -> io::Result<()> {
    let Ok(d) = division::divide(FORMATS) else {
        return Ok(());
    };
    println!(rt;
        "   byte 5: pass {}, draw 5 {}, draw 6 {}",
        d.pass, d.out, d.inn
    )
}

impl Session {
    // A login makes the port, whose pieces cross no multiple of the boundary (0 for none).
    fn make(
        &mut self,
        buffers: u32,
        boundary: u64,
        login: Message,
        buf: &mut [u8; WRITTEN],
    ) -> Answer {
        let settings = Settings {
            buffers,
            maximum: PIECE,
            boundary,
            longest: AGREED,
            indirect: true,
            solicited: false,
        };
        login::login(&mut self.port, settings, &OWN, login.bytes(), buf)
    }

    // A login without boundaries, of which nothing is shown but a refusal; the initiator may then send as many requests as there are buffers.
    pub fn log_in(&mut self, rt: &impl Print, buffers: u32) -> io::Result<()> {
        let mut buf = [0u8; WRITTEN];
        let a = self.make(buffers, 0, request(), &mut buf);
        self.channel.limit = buffers as u64;
        show::refusal(rt, "   login: ", a.reply)
    }

    // The initiator sends its login, without a limit so far.
    pub fn submit_login(&mut self, rt: &impl Print) -> io::Result<()> {
        self.channel.limit = 0;
        self.submit(rt, request())
    }

    // The oldest message makes the port, and leaves; where there is none the login has no bytes.
    pub fn take_login(&mut self, rt: &impl Print, buffers: u32, boundary: u64) -> io::Result<()> {
        let mut buf = [0u8; WRITTEN];
        let login = self.channel.to_port.front().copied();
        let a = self.make(
            buffers,
            boundary,
            login.unwrap_or_else(Message::new),
            &mut buf,
        );
        show::taken(rt, a.reply)?;
        self.send(rt, &buf, a.wrote)?;
        self.channel.to_port.pop();
        Ok(())
    }

    // The owner ends the channel.
    pub fn close(&mut self, rt: &impl Print, reason: u32) -> io::Result<()> {
        let mut buf = [0u8; WRITTEN];
        println!(rt; "   close: reason {reason}")?;
        let a = close::close(&mut self.port, reason, &mut buf);
        self.conclude(rt, &buf, a)
    }
}
