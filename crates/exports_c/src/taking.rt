// Take and tables under their names in C.
ghost use Rattle.tables.specs.Bringing.{tables};
ghost use Rattle.exports.specs.Calls.{TakeInC, TablesInC};

use words::{PORT, STORE};

#[unsafe(no_mangle)]
pub extern "C" fn srp_target_take(
    port: &mut [u64; PORT],
    store: &mut [u8; STORE],
    msg: &[u8],
    buf: &mut [u8],
    answer: &mut [u64; 8],
) -> u32
    ensures { TakeInC
        port.old store.old buf.old port.new store.new buf.new
        msg.now result answer.new }
{
    exports::taking::srp_target_take(port, store, msg, buf, answer)
}

#[unsafe(no_mangle)]
pub extern "C" fn srp_target_tables(
    port: &mut [u64; PORT],
    store: &mut [u8; STORE],
    tag: u64,
    out: &[u8],
    inn: &[u8],
    buf: &mut [u8],
    answer: &mut [u64; 8],
) -> u32
    ensures { TablesInC
        port.old store.old buf.old port.new store.new buf.new
        tag (tables out.now inn.now) result answer.new }
{
    exports::taking::srp_target_tables(port, store, tag, out, inn, buf, answer)
}
