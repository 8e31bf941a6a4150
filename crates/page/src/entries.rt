// What a message's line says, by its type.
ghost use Rattle.std.specs.Prelude.{◌≡◌, ◌+◌, ◌≤◌, length, None, Some};
ghost use Rattle.srp.specs.Bytes.{Field, get};
ghost use Rattle.page.specs.Types.{response_size, size_of};
ghost use Rattle.page.specs.Page.{lun_of_lem, code_of, line_of};
ghost use Rattle.page.specs.Page;

use crate::message::Message;
use crate::{Line, Name, Way};
use wire::layout::{DELTA, FLAGS, LUN, REASON, RSPVALID, TAG};

// the last of the four response bytes
const RSP_CODE: usize = 39;

impl Line {
    // A line with no number.
    fn blank(way: Way, name: Name) -> Line
        ensures { result ≡ record { way = way; name = name; tag = None; lun = None; number = None; code = None } }
    {
        Line {
            way,
            name,
            tag: None,
            lun: None,
            number: None,
            code: None,
        }
    }
}

impl Message<'_> {
    // The line with the message's tag alone.
    fn tagged(&self, way: Way, name: Name) -> Line
        requires { 16 ≤ length self.now.start.now }
        ensures { result ≡ Page.tagged way name self.now.start.now None None None }
    {
        Line {
            tag: Some(wire::read64(self.start, TAG)),
            ..Line::blank(way, name)
        }
    }

    fn lun(&self) -> Option<u64>
        requires { 28 ≤ length self.now.start.now }
        ensures { result ≡ lun_of_lem self.now.start.now }
    {
        Some(wire::read64(self.start, LUN))
    }

    // A delta or a reason, which have four bytes.
    fn word(&self, at: usize) -> Option<u64>
        requires { at + 4 ≤ length self.now.start.now }
        ensures { result ≡ Some (get (Field.bytes at 4) self.now.start.now) }
    {
        Some(u64::from(wire::read32(self.start, at)))
    }

    fn rsp_code(&self) -> Option<u64>
        requires { self.now.len ≡ response_size self.now.start.now }
        ensures { result ≡ code_of self.now.start.now }
    {
        let valid = wire::read_bits(self.start, FLAGS, RSPVALID, 1);
        if valid != 1 {
            return None;
        }
        Some(u64::from(wire::read8(self.start, RSP_CODE)))
    }

    pub fn line(&self, way: Way, name: Name) -> Line
        requires { self.now.len ≡ size_of name self.now.len self.now.start.now }
        ensures { result ≡ line_of way name self.now.len self.now.start.now }
    {
        match name {
            Name::LoginReq | Name::ILogout | Name::CredRsp => self.tagged(way, name),
            Name::TskMgmt | Name::Cmd => Line {
                lun: self.lun(),
                ..self.tagged(way, name)
            },
            Name::LoginRsp | Name::CredReq => Line {
                number: self.word(DELTA),
                ..self.tagged(way, name)
            },
            Name::LoginRej | Name::TLogout => Line {
                code: self.word(REASON),
                ..self.tagged(way, name)
            },
            Name::Rsp => Line {
                number: self.word(DELTA),
                code: self.rsp_code(),
                ..self.tagged(way, name)
            },
            Name::Unknown => Line {
                number: Some(self.len as u64),
                ..Line::blank(way, name)
            },
        }
    }
}
