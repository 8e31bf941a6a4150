// What the port writes: each message is laid into the lent buffer field by field, every byte past it kept.
// The fields are written from the last to the first, as the definition of a message nests them.
#![tactic(auto)]

ghost use Rattle.std.specs.Prelude.{◌≡◌, [], ◌∷◌, ◌+◌, ◌≤◌, ◌<◌, length};
ghost use Rattle.srp.specs.Limits.{buffer_size, longest_sense};
ghost use Rattle.srp.specs.Bytes.{Field, bit, put, puts, write};
ghost use Rattle.srp.specs.Messages.{rsp, cred_req, t_logout, login_rsp, login_rej};
ghost use Rattle.srp.specs.Writing.{is_over, is_under_lem, amount, response, answer, credit_request, target_logout, placed};
ghost use Rattle.message.specs.Header.{answer_size, short_size, start_fields, flag_fields, flag_values, count_fields, header_bytes, response_of, short_bytes};

use srp::limits::{CREDIT_TAG, LONGEST_WRITTEN_MESSAGE};
use srp::{Request, Residual};
use wire::layout::{
    CRED_REQ, DELTA, DIOVER, DIUNDER, DOOVER, DOUNDER, FLAGS, FORMAT_BITS, IN_RESIDUAL, LOGIN_REJ,
    LOGIN_REJ_SIZE, LOGIN_RSP, LOGIN_RSP_SIZE, LONGEST_TAKEN, LONGEST_WRITTEN, NOTIFICATION,
    OUT_RESIDUAL, REASON, RESPONSE_LENGTH, RSP, RSP_SIZE, RSPVALID, SENSE_LENGTH, SHORT_SIZE,
    SNSVALID, SOLNT, SOLNTSUP, SOLNTSUP_BIT, STATUS, T_LOGOUT, TAG,
};

const RESPONSE_BYTES: u32 = 4;

// An SRP_RSP with response bytes.
pub const ANSWER_SIZE: usize = RSP_SIZE + (RESPONSE_BYTES as usize);

// The fields of an SRP_RSP but for its response bytes and its sense.
#[derive(Clone, Copy)]
pub struct Header {
    pub solnt: bool,
    pub delta: u32,
    pub tag: u64,
    pub status: u8,
    pub out: Residual,
    pub inn: Residual,
}

fn is_over(r: Residual) -> bool
    ensures { result ≡ is_over r }
{
    matches!(r, Residual::Over(_))
}

fn is_under(r: Residual) -> bool
    ensures { result ≡ is_under_lem r }
{
    matches!(r, Residual::Under(_))
}

fn amount_of(r: Residual) -> u32
    ensures { result ≡ amount r }
{
    match r {
        Residual::Even => 0,
        Residual::Over(n) | Residual::Under(n) => n,
    }
}

// SOLNT of the answer to a request, by the status or the RSP_CODE.
pub fn solicited(r: Request, code: u8) -> bool
    ensures { result ≡ Rattle.srp.specs.Writing.solicited r code }
{
    if code == 0 { r.scsolnt } else { r.ucsolnt }
}

// One bit of a byte of the message.
fn put_bit(buf: &mut [u8], at: usize, low: u8, on: bool)
    requires { (at < length buf.old) × (low < 8) }
    ensures { buf.new ≡ put (Field.bits at low 1) (bit on) buf.old }
{
    wire::write_bits(buf, at, low, 1, on as u8);
}

// How an SRP_RSP, an SRP_CRED_REQ and an SRP_T_LOGOUT begin: the type, SOLNT, a delta or a reason, the tag.
fn put_start(buf: &mut [u8], code: u8, solnt: bool, number: u32, tag: u64)
    requires { short_size ≤ length buf.old }
    ensures { buf.new ≡ puts start_fields (code ∷ bit solnt ∷ number ∷ tag ∷ []) buf.old }
{
    wire::write64(&mut *buf, TAG, tag);
    wire::write32(&mut *buf, DELTA, number);
    put_bit(&mut *buf, NOTIFICATION, SOLNT, solnt);
    wire::write8(buf, 0, code);
}

// Byte 18 of an SRP_RSP: whether there are response bytes, whether there is sense, and the residuals' kinds.
fn put_flags(buf: &mut [u8], answered: bool, sensed: bool, out: Residual, inn: Residual)
    requires { rsp.size ≤ length buf.old }
    ensures { buf.new ≡ puts flag_fields (flag_values answered sensed out inn) buf.old }
{
    put_bit(&mut *buf, FLAGS, DIUNDER, is_under(inn));
    put_bit(&mut *buf, FLAGS, DIOVER, is_over(inn));
    put_bit(&mut *buf, FLAGS, DOUNDER, is_under(out));
    put_bit(&mut *buf, FLAGS, DOOVER, is_over(out));
    put_bit(&mut *buf, FLAGS, SNSVALID, sensed);
    put_bit(buf, FLAGS, RSPVALID, answered);
}

// Bytes 20 to 35: the residuals and the two lengths.
fn put_counts(buf: &mut [u8], out: Residual, inn: Residual, senselen: u32, resplen: u32)
    requires { rsp.size ≤ length buf.old }
    ensures { buf.new ≡ puts count_fields (amount out ∷ amount inn ∷ senselen ∷ resplen ∷ []) buf.old }
{
    wire::write32(&mut *buf, RESPONSE_LENGTH, resplen);
    wire::write32(&mut *buf, SENSE_LENGTH, senselen);
    wire::write32(&mut *buf, IN_RESIDUAL, amount_of(inn));
    wire::write32(buf, OUT_RESIDUAL, amount_of(out));
}

// The fixed bytes of an SRP_RSP with so many response bytes and so much sense.
fn put_header(buf: &mut [u8], h: Header, resplen: u32, senselen: u32)
    requires { rsp.size ≤ length buf.old }
    ensures { buf.new ≡ placed (header_bytes h resplen senselen ∷ []) buf.old }
{
    wire::clear(&mut *buf, RSP_SIZE);
    put_counts(&mut *buf, h.out, h.inn, senselen, resplen);
    wire::write8(&mut *buf, STATUS, h.status);
    put_flags(&mut *buf, resplen != 0, senselen != 0, h.out, h.inn);
    put_start(buf, RSP, h.solnt, h.delta, h.tag);
}

// SRP_RSP with response bytes: the answer to a task request, or to refusal 10.
pub fn put_answer(buf: &mut [u8], solnt: bool, tag: u64, code: u8, delta: u32)
    requires { answer_size ≤ length buf.old }
    ensures { buf.new ≡ placed (answer solnt tag code delta ∷ []) buf.old }
{
    let h = Header {
        solnt,
        delta,
        tag,
        status: 0,
        out: Residual::Even,
        inn: Residual::Even,
    };
    put_header(&mut *buf, h, RESPONSE_BYTES, 0);
    wire::write32(buf, RSP_SIZE, code as u32);
}

// SRP_RSP of a command, its sense through the part of the buffer behind the fixed fields.
pub fn put_response(buf: &mut [u8], h: Header, sense: &[u8])
    requires sense_in_bounds { rsp.size + length sense.now ≤ length buf.old }
    requires sense_len_bound { length sense.now ≤ longest_sense }
    ensures { buf.new ≡ placed (response (response_of h sense.now) ∷ []) buf.old }
{
    put_header(&mut *buf, h, 0, sense.len() as u32);
    let end = RSP_SIZE + sense.len();
    buf[RSP_SIZE..end].copy_from_slice(sense);
}

// An SRP_CRED_REQ or an SRP_T_LOGOUT.
fn put_short(buf: &mut [u8], code: u8, solnt: bool, number: u32, tag: u64)
    requires { short_size ≤ length buf.old }
    ensures { buf.new ≡ placed (short_bytes code solnt number tag ∷ []) buf.old }
{
    wire::clear(&mut *buf, SHORT_SIZE);
    put_start(buf, code, solnt, number, tag);
}

pub fn put_credit_request(buf: &mut [u8], crsolnt: bool, delta: u32)
    requires { cred_req.size ≤ length buf.old }
    ensures { buf.new ≡ placed (credit_request crsolnt delta ∷ []) buf.old }
{
    put_short(buf, CRED_REQ, crsolnt, delta, CREDIT_TAG);
}

pub fn put_logout(buf: &mut [u8], losolnt: bool, reason: u32)
    requires { t_logout.size ≤ length buf.old }
    ensures { buf.new ≡ placed (target_logout losolnt reason ∷ []) buf.old }
{
    put_short(buf, T_LOGOUT, losolnt, reason, 0);
}

// SRP_LOGIN_RSP: N buffers, the longest message each way, the formats supported, SOLNTSUP.
pub fn put_login_response(
    buf: &mut [u8],
    buffers: u32,
    tag: u64,
    longest: u32,
    formats: u16,
    solicited: bool,
)
    requires { login_rsp.size ≤ length buf.old }
    ensures { buf.new ≡ placed (write login_rsp (buffers ∷ tag ∷ longest ∷ buffer_size ∷ formats ∷ bit solicited ∷ []) ∷ []) buf.old }
{
    wire::clear(&mut *buf, LOGIN_RSP_SIZE);
    put_bit(&mut *buf, SOLNTSUP, SOLNTSUP_BIT, solicited);
    wire::write16(&mut *buf, FORMAT_BITS, formats);
    wire::write32(&mut *buf, LONGEST_WRITTEN, LONGEST_WRITTEN_MESSAGE);
    wire::write32(&mut *buf, LONGEST_TAKEN, longest);
    wire::write64(&mut *buf, TAG, tag);
    wire::write32(&mut *buf, DELTA, buffers);
    wire::write8(buf, 0, LOGIN_RSP);
}

pub fn put_login_rejection(buf: &mut [u8], reason: u32, tag: u64, formats: u16)
    requires { login_rej.size ≤ length buf.old }
    ensures { buf.new ≡ placed (write login_rej (reason ∷ tag ∷ formats ∷ []) ∷ []) buf.old }
{
    wire::clear(&mut *buf, LOGIN_REJ_SIZE);
    wire::write16(&mut *buf, FORMAT_BITS, formats);
    wire::write64(&mut *buf, TAG, tag);
    wire::write32(&mut *buf, REASON, reason);
    wire::write8(buf, 0, LOGIN_REJ);
}
