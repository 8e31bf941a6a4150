// Types, sizes, and where the fields of the messages stand: the numbers of crate srp's specs/Messages.antt, in its order.

// types of messages
pub const LOGIN_REQ: u8 = 0x00;

pub const TSK_MGMT: u8 = 0x01;

pub const COMMAND: u8 = 0x02;

pub const I_LOGOUT: u8 = 0x03;

pub const CRED_RSP: u8 = 0x41;

pub const LOGIN_RSP: u8 = 0xc0;

pub const RSP: u8 = 0xc1;

pub const LOGIN_REJ: u8 = 0xc2;

pub const CRED_REQ: u8 = 0x81;

pub const T_LOGOUT: u8 = 0x80;

// sizes: of SRP_LOGIN_REQ and SRP_TSK_MGMT; of SRP_I_LOGOUT, SRP_CRED_RSP, SRP_CRED_REQ and SRP_T_LOGOUT; of the two answers to a login;
// of an SRP_RSP's fixed part; of a memory descriptor, and of a table descriptor with the total length behind it
pub const LOGIN_REQ_SIZE: usize = 64;

pub const TSK_MGMT_SIZE: usize = 48;

pub const SHORT_SIZE: usize = 16;

pub const LOGIN_RSP_SIZE: usize = 52;

pub const LOGIN_REJ_SIZE: usize = 32;

pub const RSP_SIZE: usize = 36;

pub const SEGMENT: usize = 16;

pub const TABLE_DESCRIPTOR: usize = 20;

// formats of a descriptor
pub const DIRECT: u8 = 1;

pub const INDIRECT: u8 = 2;

// fields of several messages
pub const NOTIFICATION: usize = 1;

pub const DELTA: usize = 4;

pub const REASON: usize = 4;

pub const TAG: usize = 8;

pub const LUN: usize = 20;

pub const FORMAT_BITS: usize = 24;

// SRP_CMD: the two formats, the counts, the additional CDB length in bits 7-2, the CDB and what it has at least
pub const FORMATS: usize = 5;

pub const OUT_COUNT: usize = 6;

pub const IN_COUNT: usize = 7;

pub const ADDITIONAL: usize = 31;

pub const CDB: usize = 32;

pub const SHORTEST_CDB: usize = 16;

// SRP_TSK_MGMT
pub const TASK_FUNCTION: usize = 30;

pub const TASK_TAG: usize = 32;

// SRP_LOGIN_REQ: CRSOLNT, LOSOLNT and the channel action share a byte
pub const REQUESTED_LENGTH: usize = 16;

pub const LOGIN_BITS: usize = 26;

pub const TARGET_IDENTIFIER: usize = 48;

// SRP_LOGIN_RSP
pub const LONGEST_TAKEN: usize = 16;

pub const LONGEST_WRITTEN: usize = 20;

pub const SOLNTSUP: usize = 26;

// SRP_RSP
pub const FLAGS: usize = 18;

pub const STATUS: usize = 19;

pub const OUT_RESIDUAL: usize = 20;

pub const IN_RESIDUAL: usize = 24;

pub const SENSE_LENGTH: usize = 28;

pub const RESPONSE_LENGTH: usize = 32;

// a memory descriptor, and the total length that follows a table descriptor
pub const ADDRESS: usize = 0;

pub const HANDLE: usize = 8;

pub const SEGMENT_LENGTH: usize = 12;

pub const TOTAL_LENGTH: usize = 16;

// bits of byte 1, of a response's flags, of byte 26 in SRP_LOGIN_REQ and SRP_LOGIN_RSP
pub const SOLNT: u8 = 0;

pub const SCSOLNT: u8 = 1;

pub const UCSOLNT: u8 = 2;

pub const RSPVALID: u8 = 0;

pub const SNSVALID: u8 = 1;

pub const DOOVER: u8 = 2;

pub const DOUNDER: u8 = 3;

pub const DIOVER: u8 = 4;

pub const DIUNDER: u8 = 5;

pub const LOGIN_CRSOLNT: u8 = 5;

pub const LOGIN_LOSOLNT: u8 = 4;

pub const CHANNEL_ACTION: u8 = 0;

pub const SOLNTSUP_BIT: u8 = 4;
