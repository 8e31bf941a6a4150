// Which of document 01's types a message is.
ghost use Rattle.std.specs.Prelude.{◌≡◌, ◌≤◌, ◌<◌, length};
ghost use Rattle.page.specs.Types.{type_named_lem, response_bytes_lem, sense_bytes_lem, size_of, fits_command_lem, fits, name_of};

use crate::Name;
use crate::message::Message;
use srp::limits::SHORTEST_COMMAND;
use wire::layout::{
    ADDITIONAL, COMMAND, CRED_REQ, CRED_RSP, FLAGS, FORMATS, I_LOGOUT, IN_COUNT, INDIRECT,
    LOGIN_REJ, LOGIN_REJ_SIZE, LOGIN_REQ, LOGIN_REQ_SIZE, LOGIN_RSP, LOGIN_RSP_SIZE, OUT_COUNT,
    RSP, RSP_SIZE, RSPVALID, SENSE_LENGTH, SHORT_SIZE, SNSVALID, T_LOGOUT, TSK_MGMT, TSK_MGMT_SIZE,
};

const RESPONSE_BYTES: usize = 4;

// by its first byte
#[tactic(auto, unfolding(crate::specs::Types::type_named_lem))]
impl From<u8> for Name {
    ghost from_gives = { λ kind name. name ≡ type_named_lem kind };

    fn from(kind: u8) -> Name {
        match kind {
            LOGIN_REQ => Name::LoginReq,
            TSK_MGMT => Name::TskMgmt,
            COMMAND => Name::Cmd,
            I_LOGOUT => Name::ILogout,
            CRED_RSP => Name::CredRsp,
            LOGIN_RSP => Name::LoginRsp,
            LOGIN_REJ => Name::LoginRej,
            RSP => Name::Rsp,
            CRED_REQ => Name::CredReq,
            T_LOGOUT => Name::TLogout,
            _ => Name::Unknown,
        }
    }
}

impl Message<'_> {
    fn fits_command(&self) -> bool
        ensures { result ≡ fits_command_lem self.now.len self.now.start.now }
    {
        if self.len < SHORTEST_COMMAND {
            return false;
        }
        let out = wire::read_bits(self.start, FORMATS, 4, 4);
        if INDIRECT < out {
            return false;
        }
        let inn = wire::read_bits(self.start, FORMATS, 0, 4);
        if INDIRECT < inn {
            return false;
        }
        let additional = 4 * wire::read_bits(self.start, ADDITIONAL, 2, 6) as usize;
        let out_size = command::size(out, wire::read8(self.start, OUT_COUNT));
        let in_size = command::size(inn, wire::read8(self.start, IN_COUNT));
        self.len == SHORTEST_COMMAND + additional + out_size + in_size
    }

    fn response_bytes(&self) -> usize
        requires { 36 ≤ length self.now.start.now }
        ensures { (result ≡ response_bytes_lem self.now.start.now) × (result ≤ 4) }
    {
        if wire::read_bits(self.start, FLAGS, RSPVALID, 1) == 1 {
            RESPONSE_BYTES
        } else {
            0
        }
    }

    fn sense_bytes(&self) -> usize
        requires { 36 ≤ length self.now.start.now }
        ensures { (result ≡ sense_bytes_lem self.now.start.now) × (result < 4294967296) }
    {
        if wire::read_bits(self.start, FLAGS, SNSVALID, 1) == 1 {
            wire::read32(self.start, SENSE_LENGTH) as usize
        } else {
            0
        }
    }

    fn fits_response(&self) -> bool
        ensures { result ≡ fits Name.Rsp self.now.len self.now.start.now }
    {
        RSP_SIZE <= self.len && self.len == RSP_SIZE + self.response_bytes() + self.sense_bytes()
    }

    // Whether a message of this type has its type's length and no format above 2.
    fn is_fit(&self, name: Name) -> bool
        ensures { result ≡ fits name self.now.len self.now.start.now }
    {
        match name {
            Name::LoginReq => self.len == LOGIN_REQ_SIZE,
            Name::TskMgmt => self.len == TSK_MGMT_SIZE,
            Name::Cmd => self.fits_command(),
            Name::ILogout | Name::CredRsp | Name::CredReq | Name::TLogout => {
                self.len == SHORT_SIZE
            }
            Name::LoginRsp => self.len == LOGIN_RSP_SIZE,
            Name::LoginRej => self.len == LOGIN_REJ_SIZE,
            Name::Rsp => self.fits_response(),
            Name::Unknown => true,
        }
    }

    pub fn name(&self) -> Name
        ensures { (result ≡ name_of self.now.len self.now.start.now) × (self.now.len ≡ size_of result self.now.len self.now.start.now) }
    {
        if self.len == 0 {
            return Name::Unknown;
        }
        let name = Name::from(wire::read8(self.start, 0));
        if self.is_fit(name) {
            return name;
        }
        Name::Unknown
    }
}
