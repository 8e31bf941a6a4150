// The types that the definitions of specs/ share with the code: what is refused, what a message says, what a call answers.
// The papers' numbers and values for each case stand in specs/Refusals.antt and specs/Answers.antt. A field `inn` is data-in's: `in` is a keyword.
#![tactic(auto)]

ghost use Rattle.std.specs.Prelude.{◌≡◌};
ghost use Rattle.srp.specs.Calls.{kind_of};

pub mod limits;

// Why a call is refused, with the papers' numbers.
#[derive(Clone, Copy)]
pub enum Refusal {
    ShortBuffer = 1,
    Setting = 2,
    Length = 3,
    OtherType = 4,
    OutFormat = 5,
    InFormat = 6,
    OutCount = 7,
    InCount = 8,
    TableLength = 9,
    Fields = 10,
    Argument = 11,
    Closed = 21,
    NoCredit = 22,
    TagOpen = 23,
    TagNotOpen = 24,
    CreditResponse = 25,
    Unanswered = 26,
    NotOwed = 27,
    Wanted = 28,
    Unplanned = 29,
    Planned = 30,
    Offset = 31,
    Unfinished = 32,
    Waiting = 33,
}

// Data-out, which RDMA Reads fetch, and data-in, which RDMA Writes bring.
#[derive(Clone, Copy, PartialEq, Eq)]
pub enum Direction {
    Out,
    In,
}

// Which RDMA operation, with the papers' numbers.
#[derive(Clone, Copy)]
pub enum Kind {
    Read = 1,
    Write = 2,
}

impl From<Direction> for Kind {
    fn from(direction: Direction) -> Kind
        ensures { result ≡ kind_of direction }
    {
        match direction {
            Direction::Out => Kind::Read,
            Direction::In => Kind::Write,
        }
    }
}

// A data buffer descriptor: its format and count, its place in the message; for format 2 the table's length and the total length.
#[derive(Clone, Copy, Default)]
pub struct Descriptor {
    pub format: u8,
    pub count: u8,
    pub at: usize,
    pub len: u32,
    pub total: u32,
}

// What a request, an SRP_CMD or SRP_TSK_MGMT, is known by and how its answer is to be notified.
#[derive(Clone, Copy)]
pub struct Request {
    pub tag: u64,
    pub lun: u64,
    pub ucsolnt: bool,
    pub scsolnt: bool,
}

// What the owner sets before a login: N, M, Q, X, and whether indirect tables and solicited events are supported.
#[derive(Clone, Copy)]
pub struct Settings {
    pub buffers: u32,
    pub maximum: u32,
    pub boundary: u64,
    pub longest: u32,
    pub indirect: bool,
    pub solicited: bool,
}

// What a login settled: M, Q, the agreed length and formats, CRSOLNT and LOSOLNT.
#[derive(Clone, Copy)]
pub struct Terms {
    pub maximum: u32,
    pub boundary: u64,
    pub agreed: u32,
    pub formats: u32,
    pub crsolnt: bool,
    pub losolnt: bool,
}

// What moves of a command's data in a direction: R, which is 0 until it is planned; h, the highest offset handed out + 1, 0 where nothing was; and
// what is left of the current move, its bytes from `at` up to `end`, and the number of operations handed out for it, all 0 before any move.
#[derive(Clone, Copy, Default)]
pub struct Transfer {
    pub required: u32,
    pub highest: u32,
    pub at: u32,
    pub end: u32,
    pub number: u32,
}

// A move in the line of moves with pieces: its command's tag and its direction.
#[derive(Clone, Copy, PartialEq, Eq)]
pub struct Place {
    pub tag: u64,
    pub direction: Direction,
}

// An SRP_CMD. Its CDB is the cdb bytes of the message from byte 32 on.
#[derive(Clone, Copy)]
pub struct Command {
    pub request: Request,
    pub cdb: usize,
    pub out: Descriptor,
    pub inn: Descriptor,
}

// An SRP_TSK_MGMT. The function 01h is about the command with the tag managed.
#[derive(Clone, Copy)]
pub struct TaskRequest {
    pub request: Request,
    pub function: u8,
    pub managed: u64,
}

// What a message to the port is.
#[derive(Clone, Copy)]
pub enum Message {
    Cmd(Command),
    TskMgmt(TaskRequest),
    CredRsp(u64),
    ILogout,
}

// A table to fetch; len is 0 where there is none.
#[derive(Clone, Copy, Default)]
pub struct Fetch {
    pub address: u64,
    pub handle: u32,
    pub len: u32,
}

// What look tells: the table to fetch each way.
#[derive(Clone, Copy)]
pub struct Look {
    pub out: Fetch,
    pub inn: Fetch,
}

// A part of a segment, with its offset in the buffer that the segments make up.
#[derive(Clone, Copy)]
pub struct Piece {
    pub address: u64,
    pub handle: u32,
    pub len: u32,
    pub offset: u32,
}

// How a direction's data differ from its buffer: more were required than B; h stayed below B.
#[derive(Clone, Copy)]
pub enum Residual {
    Even,
    Over(u32),
    Under(u32),
}

// W, A, H and D of an open channel.
#[derive(Clone, Copy)]
pub struct Counters {
    pub wanted: u8,
    pub announced: u8,
    pub held: u8,
    pub owed: i64,
}

// An open command in a listing, with h each way.
#[derive(Clone, Copy, Default, PartialEq, Eq)]
pub struct Record {
    pub tag: u64,
    pub lun: u64,
    pub out: u32,
    pub inn: u32,
}

// What a call on the port answers that is not refused.
#[derive(Clone, Copy)]
pub enum Reply {
    // tables, a plan, move, add, withdraw, finish, grant or close
    Performed,
    // a take: a command with its CDB's length, and whether it waits for its tables; a task request; a settled credit request; the initiator's logout
    NewCommand {
        tag: u64,
        lun: u64,
        cdb: usize,
        waits: bool,
    },
    TaskAnswered {
        tag: u64,
        lun: u64,
    },
    CreditSettled,
    LoggedOut,
    // a step: an RDMA operation; done; each with the number handed out so far for the current move, this operation included
    Operation(Kind, Piece, u32),
    Done(u32),
    // a turn: an operation with its command's tag, its direction and that number; none, since no move has pieces
    Served(u64, Direction, Piece, u32),
    Idle,
    // a login
    Accepted,
    Rejected(u32),
    // the counters; how many records a listing has
    Counts(Counters),
    Listed(usize),
}

// A reply or why there is none, and the length of the message in the lent buffer, 0 where none was written.
#[derive(Clone, Copy)]
pub struct Answer {
    pub reply: Result<Reply, Refusal>,
    pub wrote: usize,
}
