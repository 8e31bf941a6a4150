// The initiator's messages, laid out by document 01's numbers.
ghost use Rattle.std.specs.Prelude.{◌≡◌, ◌+◌, ◌*◌, ◌/◌, ◌≤◌, ◌<◌, length};

use crate::paper::{
    ADDITIONAL, ADDRESS, CDB, CMD_SIZE, COMMAND, CRED_REQ, CRED_RSP, DELTA, FORMAT_BITS, FORMATS,
    HANDLE, I_LOGOUT, IDENTIFIER, IN_COUNT, IN_DIRECT, LOGIN_REQ, LOGIN_REQ_SIZE, LOGIN_RSP, LUN,
    NOTIFICATION, OUT_COUNT, READ, REQUESTED_LENGTH, RSP, SEGMENT, SEGMENT_LENGTH, SHORTEST, TABLE,
    TAG, TARGET_IDENTIFIER, TASK_FUNCTION, TASK_TAG, TOTAL_LENGTH, TSK_MGMT, TSK_MGMT_SIZE,
};

// More bytes than any message here has.
pub const LONGEST: usize = 256;

// A message, or a table of memory descriptors that lies in the initiator's memory: the first `len` of the bytes.
#[derive(Clone, Copy)]
pub struct Message {
    bytes: [u8; LONGEST],
    len: usize,
    pub ghost len_bound: { len ≤ 256 },
}

// Of an SRP_CMD without its descriptors what a program sets: byte 1, the formats and counts, the tag and LUN, the first byte of the CDB.
#[derive(Clone, Copy, Default)]
pub struct Command {
    pub notification: u8,
    pub formats: u8,
    pub out_count: u8,
    pub in_count: u8,
    pub tag: u64,
    pub lun: u64,
    pub operation: u8,
}

fn put_names(bytes: &mut [u8; LONGEST], tag: u64, lun: u64) {
    wire::write64(&mut *bytes, TAG, tag);
    wire::write64(bytes, LUN, lun);
}

impl Message {
    ghost use Rattle.std.specs.Prelude.{[], take};
    ghost use Rattle.host.specs.Messages.{sent, costs, raises};

    // No bytes.
    pub fn new() -> Message
        ensures { result.len ≡ 0 }
    {
        Message {
            bytes: [0; LONGEST],
            len: 0,
        }
    }

    pub fn copy_of(bytes: &[u8]) -> Message
        requires { length bytes.now ≤ 256 }
        ensures { sent result ≡ bytes.now }
    {
        let len = bytes.len();
        let mut all = [0u8; LONGEST];
        all[..len].copy_from_slice(bytes);
        Message { bytes: all, len }
    }

    pub fn bytes(&self) -> &[u8]
        ensures { result.now ≡ sent self.now }
    {
        &self.bytes[..self.len]
    }

    // Its first bytes, none where there are fewer.
    pub fn first(self, len: usize) -> Message
        ensures bytes { len ≤ self.len → sent result ≡ take len (sent self) }
        ensures none { self.len < len → sent result ≡ [] }
    {
        if self.len < len {
            return Message::new();
        }
        let bytes = self.bytes;
        Message { bytes, len }
    }

    // An SRP_LOGIN_REQ.
    pub fn login(tag: u64, requested: u32, formats: u16, own: &[u8; IDENTIFIER]) -> Message
        ensures { result.len ≡ 64 }
    {
        let mut bytes = [0u8; LONGEST];
        wire::write8(&mut bytes, 0, LOGIN_REQ);
        wire::write64(&mut bytes, TAG, tag);
        wire::write32(&mut bytes, REQUESTED_LENGTH, requested);
        wire::write16(&mut bytes, FORMAT_BITS, formats);
        bytes[TARGET_IDENTIFIER..LOGIN_REQ_SIZE].copy_from_slice(own);
        Message {
            bytes,
            len: LOGIN_REQ_SIZE,
        }
    }

    // An SRP_CMD, whose descriptors are to follow.
    pub fn command(command: Command) -> Message
        ensures { result.len ≡ 48 }
    {
        let mut bytes = [0u8; LONGEST];
        wire::write8(&mut bytes, 0, COMMAND);
        wire::write8(&mut bytes, NOTIFICATION, command.notification);
        wire::write8(&mut bytes, FORMATS, command.formats);
        wire::write8(&mut bytes, OUT_COUNT, command.out_count);
        wire::write8(&mut bytes, IN_COUNT, command.in_count);
        put_names(&mut bytes, command.tag, command.lun);
        wire::write8(&mut bytes, CDB, command.operation);
        Message {
            bytes,
            len: CMD_SIZE,
        }
    }

    // An SRP_CMD that reads with one memory descriptor.
    pub fn read(tag: u64, address: u64, len: u32) -> Message
        ensures { result.len ≡ 64 }
    {
        Message::command(Command {
            formats: IN_DIRECT,
            tag,
            operation: READ,
            ..Command::default()
        })
        .with_segment(address, 7, len)
    }

    // An SRP_CMD without data.
    pub fn without_data(tag: u64, lun: u64) -> Message
        ensures { result.len ≡ 48 }
    {
        Message::command(Command {
            tag,
            lun,
            ..Command::default()
        })
    }

    // The byte of an SRP_CMD that has the additional CDB length, and behind the message that many bytes of CDB more; no bytes where they do not fit.
    pub fn with_additional(self, byte: u8) -> Message
        ensures longer { self.len + 4 * (byte / 4) ≤ 256 → result.len ≡ self.len + 4 * (byte / 4) }
        ensures none { 256 < self.len + 4 * (byte / 4) → result.len ≡ 0 }
    {
        let longer = self.len + 4 * (byte as usize / 4);
        if LONGEST < longer {
            return Message::new();
        }
        let mut bytes = self.bytes;
        wire::write8(&mut bytes, ADDITIONAL, byte);
        Message { bytes, len: longer }
    }

    // A memory descriptor behind the message.
    pub fn with_segment(self, address: u64, handle: u32, len: u32) -> Message
        requires { self.len + 16 ≤ 256 }
        ensures { result.len ≡ self.len + 16 }
    {
        let at = self.len;
        let mut bytes = self.bytes;
        wire::write64(&mut bytes, at + ADDRESS, address);
        wire::write32(&mut bytes, at + HANDLE, handle);
        wire::write32(&mut bytes, at + SEGMENT_LENGTH, len);
        Message {
            bytes,
            len: at + SEGMENT,
        }
    }

    // A table descriptor of so many entries behind the message, with the total length.
    pub fn with_table(self, address: u64, handle: u32, entries: u8, total: u32) -> Message
        requires { self.len + 20 ≤ 256 }
        ensures { result.len ≡ self.len + 20 }
    {
        let at = self.len;
        let described = self.with_segment(address, handle, entries as u32 * SEGMENT as u32);
        let mut bytes = described.bytes;
        wire::write32(&mut bytes, at + TOTAL_LENGTH, total);
        Message {
            bytes,
            len: at + TABLE,
        }
    }

    // An SRP_TSK_MGMT.
    pub fn task(tag: u64, lun: u64, function: u8, managed: u64) -> Message
        ensures { result.len ≡ 48 }
    {
        let mut bytes = [0u8; LONGEST];
        wire::write8(&mut bytes, 0, TSK_MGMT);
        put_names(&mut bytes, tag, lun);
        wire::write8(&mut bytes, TASK_FUNCTION, function);
        wire::write64(&mut bytes, TASK_TAG, managed);
        Message {
            bytes,
            len: TSK_MGMT_SIZE,
        }
    }

    // A message that has a type and a tag.
    fn short(kind: u8, tag: u64) -> Message
        ensures { result.len ≡ 16 }
    {
        let mut bytes = [0u8; LONGEST];
        wire::write8(&mut bytes, 0, kind);
        wire::write64(&mut bytes, TAG, tag);
        Message {
            bytes,
            len: SHORTEST,
        }
    }

    // An SRP_CRED_RSP.
    pub fn credit_response(tag: u64) -> Message
        ensures { result.len ≡ 16 }
    {
        Message::short(CRED_RSP, tag)
    }

    // An SRP_I_LOGOUT.
    pub fn logout(tag: u64) -> Message
        ensures { result.len ≡ 16 }
    {
        Message::short(I_LOGOUT, tag)
    }

    // A request takes one off the request limit.
    pub fn is_request(&self) -> bool
        ensures { result ≡ costs (sent self.now) }
    {
        matches!(self.bytes(), [COMMAND | TSK_MGMT, ..])
    }

    // What a message from the port adds to the request limit.
    pub fn delta(&self) -> u32
        ensures { result ≡ raises (sent self.now) }
    {
        let bytes = self.bytes();
        if bytes.len() < SHORTEST {
            return 0;
        }
        match wire::read8(bytes, 0) {
            LOGIN_RSP | RSP | CRED_REQ => wire::read32(bytes, DELTA),
            _ => 0,
        }
    }
}
