// Login: the settings, the refusals and rejections, and the port that an accepted login makes.
#![tactic(auto)]

ghost use Rattle.std.specs.Prelude.{◌≡◌, ◌≤◌, length};
ghost use Rattle.srp.specs.Limits.{buffer_size};
ghost use Rattle.srp.specs.Bytes.{part};
ghost use Rattle.srp.specs.Messages.{login_req, target_identifier};
ghost use Rattle.srp.specs.Descriptors.{same_bytes};
ghost use Rattle.srp.specs.Refusals.{first_of_checks};
ghost use Rattle.srp.specs.Login.{bad_settings_lem, rejections, terms_of_lem};
ghost use Rattle.words.specs.Head.{TermsFit};
ghost use Rattle.words.specs.View.{closed_words};
ghost use Rattle.login.specs.LoggingIn.{verdict_of, GoodSettings, Opens, AnswersLogin, MakesPort};

use srp::limits::{
    BOTH_FORMATS, DIRECT_ONLY, LARGEST_PIECE, LONGEST_AGREED, LONGEST_WRITTEN_MESSAGE,
    SHORTEST_AGREED,
};
use srp::{Answer, Refusal, Reply, Settings, Terms, limits};
use wire::layout::{
    CHANNEL_ACTION, FORMAT_BITS, LOGIN_BITS, LOGIN_CRSOLNT, LOGIN_LOSOLNT, LOGIN_REJ_SIZE,
    LOGIN_REQ, LOGIN_REQ_SIZE, LOGIN_RSP_SIZE, REQUESTED_LENGTH, TAG, TARGET_IDENTIFIER,
};
use words::{Head, PORT};

const MOST_BUFFERS: u32 = limits::MOST_BUFFERS as u32;

// Why a login of the right length and type is rejected, with document 01's numbers.
#[derive(Clone, Copy)]
pub enum Reason {
    NoReason = 0x00010000,
    TooLong = 0x00010002,
    OtherTarget = 0x00010003,
    FormatsNotSupported = 0x00010004,
    MultipleChannels = 0x00010005,
}

fn bad_settings(c: Settings) -> bool
    ensures { result ≡ bad_settings_lem c }
{
    c.buffers == 0
        || MOST_BUFFERS < c.buffers
        || c.maximum == 0
        || LARGEST_PIECE < c.maximum
        || boundary::is_bad(c.boundary)
        || c.longest < SHORTEST_AGREED
        || LONGEST_AGREED < c.longest
}

// The formats supported, as bits.
fn supported(c: Settings) -> u32
    ensures { result ≡ Rattle.srp.specs.Login.supported c }
{
    if c.indirect {
        BOTH_FORMATS
    } else {
        DIRECT_ONLY
    }
}

// Whether the login names the port's own identifier as its target.
fn names_own(msg: &[u8], own: &[u8; 16]) -> bool
    requires { login_req.size ≤ length msg.now }
    ensures { result ≡ same_bytes (part target_identifier msg.now) own.now }
{
    let end = TARGET_IDENTIFIER + own.len();
    wire::begins(&msg[TARGET_IDENTIFIER..end], own)
}

// The first rejection that fits.
fn judge(c: Settings, own: &[u8; 16], msg: &[u8]) -> Result<(), Reason>
    requires { length msg.now ≡ login_req.size }
    ensures { verdict_of result ≡ first_of_checks (rejections c own.now msg.now) }
{
    let requested = wire::read32(msg, REQUESTED_LENGTH);
    if requested < SHORTEST_AGREED {
        return Err(Reason::NoReason);
    }
    if c.longest < requested {
        return Err(Reason::TooLong);
    }
    let formats = wire::read16(msg, FORMAT_BITS) as u32;
    if wire::other_formats(supported(c), formats) {
        return Err(Reason::FormatsNotSupported);
    }
    let action = wire::read_bits(msg, LOGIN_BITS, CHANNEL_ACTION, 2);
    if action == 1 {
        return Err(Reason::MultipleChannels);
    }
    if 1 < action {
        return Err(Reason::NoReason);
    }
    if !names_own(msg, own) {
        return Err(Reason::OtherTarget);
    }
    Ok(())
}

// What an accepted login settles.
fn terms_of(c: Settings, msg: &[u8]) -> Terms
    requires { length msg.now ≡ login_req.size }
    ensures { result ≡ terms_of_lem c msg.now }
{
    Terms {
        maximum: c.maximum,
        boundary: c.boundary,
        agreed: wire::read32(msg, REQUESTED_LENGTH),
        formats: wire::read16(msg, FORMAT_BITS) as u32,
        crsolnt: wire::read_bits(msg, LOGIN_BITS, LOGIN_CRSOLNT, 1) == 1,
        losolnt: wire::read_bits(msg, LOGIN_BITS, LOGIN_LOSOLNT, 1) == 1,
    }
}

// The port of an accepted login, in a closed port's words.
fn open_port(s: &mut [u64; PORT], c: Settings, msg: &[u8])
    requires s_value { s.old ≡ closed_words }
    requires msg_len { length msg.now ≡ login_req.size }
    requires good_settings { GoodSettings c }
    requires terms_fit { TermsFit (terms_of_lem c msg.now) }
    ensures { Opens s.new c msg.now }
{
    let h = Head {
        live: true,
        held: 0,
        wanted: c.buffers as u8,
        announced: c.buffers as u8,
        unanswered: false,
        terms: terms_of(c, msg),
    };
    words::set_head(s, h);
}

// A login of the right length and type, on a closed port.
fn answer_login(
    s: &mut [u64; PORT],
    c: Settings,
    own: &[u8; 16],
    msg: &[u8],
    buf: &mut [u8],
) -> Answer
    requires s_value { s.old ≡ closed_words }
    requires msg_len { length msg.now ≡ login_req.size }
    requires good_settings { GoodSettings c }
    requires buffer_size_in_bounds { buffer_size ≤ length buf.old }
    ensures { AnswersLogin buf.old s.new buf.new c own.now msg.now result }
{
    let tag = wire::read64(msg, TAG);
    let formats = supported(c) as u16;
    if let Err(r) = judge(c, own, msg) {
        let reason = r as u32;
        message::put_login_rejection(buf, reason, tag, formats);
        return Answer {
            reply: Ok(Reply::Rejected(reason)),
            wrote: LOGIN_REJ_SIZE,
        };
    }
    open_port(s, c, msg);
    message::put_login_response(
        buf,
        c.buffers,
        tag,
        wire::read32(msg, REQUESTED_LENGTH),
        formats,
        c.solicited,
    );
    Answer {
        reply: Ok(Reply::Accepted),
        wrote: LOGIN_RSP_SIZE,
    }
}

// Makes a port in any words, using nothing of what they held. Refused 1, 2, 3, 4.
pub fn login(s: &mut [u64; PORT], c: Settings, own: &[u8; 16], msg: &[u8], buf: &mut [u8]) -> Answer
    ensures { MakesPort buf.old s.new buf.new c own.now msg.now result }
{
    words::clear(s);
    if buf.len() < (LONGEST_WRITTEN_MESSAGE as usize) {
        return answer::refused(Refusal::ShortBuffer);
    }
    if bad_settings(c) {
        return answer::refused(Refusal::Setting);
    }
    if msg.len() != LOGIN_REQ_SIZE {
        return answer::refused(Refusal::Length);
    }
    if wire::read8(msg, 0) != LOGIN_REQ {
        return answer::refused(Refusal::OtherType);
    }
    answer_login(s, c, own, msg, buf)
}
