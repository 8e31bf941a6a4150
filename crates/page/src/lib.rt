// A message as one line of 80 columns, for people at a terminal. What the line says is decided by value; then it is written once.
#![tactic(auto)]

mod entries;
mod kinds;
mod message;
mod writing;

ghost use Rattle.std.specs.Prelude.{◌≡◌, [], ◌∷◌, ◌≤◌, length};
ghost use Rattle.srp.specs.Writing.{placed};
ghost use Rattle.page.specs.Types.{Begins};
ghost use Rattle.page.specs.Page.{line_length, line_from, Traced};

use message::Message;
use srp::{Refusal, Reply};

// A line, its line feed included.
pub const LINE: usize = 81;

// How many bytes of a message are read, its length apart.
pub const MOST_READ: usize = 40;

// towards the port, or from it
#[derive(Clone, Copy)]
pub enum Way {
    Towards,
    From,
}

// The types of document 01; a message that is none of them is unknown.
#[derive(Clone, Copy)]
pub enum Name {
    LoginReq,
    TskMgmt,
    Cmd,
    ILogout,
    CredRsp,
    LoginRsp,
    LoginRej,
    Rsp,
    CredReq,
    TLogout,
    Unknown,
}

// What a line says, each number if it stands there: `number` is a delta, or an unknown message's length; `code` is a reason or an RSP_CODE.
#[derive(Clone, Copy)]
pub struct Line {
    pub way: Way,
    pub name: Name,
    pub tag: Option<u64>,
    pub lun: Option<u64>,
    pub number: Option<u64>,
    pub code: Option<u64>,
}

// The line of a message of `len` bytes, of which `start` has the first 40, or all.
pub fn put_start(start: &[u8], len: usize, way: Way, buf: &mut [u8])
    requires begins { Begins len start.now }
    requires line_length_in_bounds { line_length ≤ length buf.old }
    ensures { buf.new ≡ placed (line_from way len start.now ∷ []) buf.old }
{
    let message = Message { start, len };
    let name = message.name();
    writing::put_line(buf, message.line(way, name));
}

// Writes a message's line into a lent buffer of at least 81 bytes. Refused 1.
pub fn trace(msg: &[u8], way: Way, buf: &mut [u8]) -> Result<Reply, Refusal>
    ensures { Traced way msg.now buf.old buf.new result }
{
    if buf.len() < LINE {
        return Err(Refusal::ShortBuffer);
    }
    put_start(msg, msg.len(), way, buf);
    Ok(Reply::Performed)
}
