// Document 01's numbers, stated here anew, so that a wrong place in the port's own table shows.

// types of messages
pub const LOGIN_REQ: u8 = 0x00;

pub const TSK_MGMT: u8 = 0x01;

pub const COMMAND: u8 = 0x02;

pub const I_LOGOUT: u8 = 0x03;

pub const CRED_RSP: u8 = 0x41;

pub const CRED_REQ: u8 = 0x81;

pub const LOGIN_RSP: u8 = 0xc0;

pub const RSP: u8 = 0xc1;

// sizes: of SRP_LOGIN_REQ; of an SRP_CMD without data, behind which its descriptors stand, and of SRP_TSK_MGMT; of the shortest messages, as
// SRP_CRED_RSP and SRP_I_LOGOUT are; of an SRP_RSP without response bytes; of an identifier
pub const LOGIN_REQ_SIZE: usize = 64;

pub const CMD_SIZE: usize = 48;

pub const TSK_MGMT_SIZE: usize = 48;

pub const SHORTEST: usize = 16;

pub const RSP_SIZE: usize = 36;

pub const IDENTIFIER: usize = 16;

// fields of several messages
pub const NOTIFICATION: usize = 1;

pub const TAG: usize = 8;

pub const LUN: usize = 20;

// SRP_CMD, and what its byte of formats may hold
pub const FORMATS: usize = 5;

pub const OUT_COUNT: usize = 6;

pub const IN_COUNT: usize = 7;

pub const ADDITIONAL: usize = 31;

pub const CDB: usize = 32;

pub const OUT_DIRECT: u8 = 0x10;

pub const OUT_INDIRECT: u8 = 0x20;

pub const IN_DIRECT: u8 = 0x01;

pub const IN_INDIRECT: u8 = 0x02;

// operations of disks, the first byte of a CDB: one without data; READ (10), WRITE (10) and XDWRITEREAD (10)
pub const TEST_UNIT_READY: u8 = 0x00;

pub const READ: u8 = 0x28;

pub const WRITE: u8 = 0x2a;

pub const WRITE_READ: u8 = 0x53;

// SRP_TSK_MGMT
pub const TASK_FUNCTION: usize = 30;

pub const TASK_TAG: usize = 32;

pub const ABORT_TASK: u8 = 0x01;

// a memory descriptor, and the total length behind a table descriptor; the size of the one, and of the other with that length
pub const ADDRESS: usize = 0;

pub const HANDLE: usize = 8;

pub const SEGMENT_LENGTH: usize = 12;

pub const TOTAL_LENGTH: usize = 16;

pub const SEGMENT: usize = 16;

pub const TABLE: usize = 20;

// SRP_RSP; SRP_CRED_REQ has its delta and SRP_LOGIN_RSP its N at the same bytes
pub const DELTA: usize = 4;

pub const FLAGS: usize = 18;

pub const STATUS: usize = 19;

pub const OUT_RESIDUAL: usize = 20;

pub const IN_RESIDUAL: usize = 24;

pub const SENSE_LENGTH: usize = 28;

// statuses of a command: it ended well, or failed; the reason of an SRP_T_LOGOUT of a channel that is inactive; the tag of SRP_CRED_REQ and of the answer
pub const GOOD: u8 = 0x00;

pub const CHECK_CONDITION: u8 = 0x02;

pub const INACTIVE: u32 = 1;

pub const CREDIT_TAG: u64 = 1;

// bits: SOLNT of byte 1; byte 1 of a request with both of its bits
pub const SOLNT: u8 = 0;

pub const BOTH_SOLNT: u8 = 0x06;

// SRP_LOGIN_REQ
pub const REQUESTED_LENGTH: usize = 16;

pub const FORMAT_BITS: usize = 24;

pub const TARGET_IDENTIFIER: usize = 48;
