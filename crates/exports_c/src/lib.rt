// The calls under their names in C, as include/srp_target.h declares them: each is the call of crate exports of that name, with its contract. Those on a
// port are in port.rt, take and tables in taking.rt.
#![tactic(auto)]

pub mod port;
pub mod taking;

ghost use Rattle.std.specs.Prelude.{length};
ghost use Rattle.srp.specs.Outside.{look_in_c, cut_in_c};
ghost use Rattle.page.specs.Page.{trace_in_c};
ghost use Rattle.exports.specs.Answered.{Answered};
ghost use Rattle.exports.specs.Calls.{FormatCountsInC};
ghost use Rattle.exports.specs.Arguments.{way_in};

#[unsafe(no_mangle)]
pub extern "C" fn srp_look(msg: &[u8], agreed: u32, formats: u32, buf: &mut [u8]) -> u32
    ensures { Answered result buf.old buf.new (look_in_c agreed formats msg.now (length buf.old)) }
{
    exports::srp_look(msg, agreed, formats, buf)
}

#[unsafe(no_mangle)]
pub extern "C" fn srp_cut(list: &[u8], m: u32, q: u64, r: u32, handed: u32, buf: &mut [u8]) -> u32
    ensures { Answered result buf.old buf.new (cut_in_c list.now m q r handed (length buf.old)) }
{
    exports::srp_cut(list, m, q, r, handed, buf)
}

#[unsafe(no_mangle)]
pub extern "C" fn srp_trace(msg: &[u8], direction: u32, buf: &mut [u8]) -> u32
    ensures { Answered result buf.old buf.new (trace_in_c (way_in direction) msg.now (length buf.old)) }
{
    exports::srp_trace(msg, direction, buf)
}

#[unsafe(no_mangle)]
pub extern "C" fn srp_format_counts(formats: u32, answer: &mut [u64; 8]) -> u32
    ensures { FormatCountsInC formats result answer.new }
{
    exports::srp_format_counts(formats, answer)
}
