// Take and tables for callers in C.
ghost use Rattle.tables.specs.Bringing.{tables};
ghost use Rattle.exports.specs.Calls.{TakeInC, TablesInC};

use crate::port;
use srp::Reply;
use words::{PORT, STORE};

pub fn srp_target_take(
    port: &mut [u64; PORT],
    store: &mut [u8; STORE],
    msg: &[u8],
    buf: &mut [u8],
    answer: &mut [u64; 8],
) -> u32
    ensures { TakeInC
        port.old store.old buf.old port.new store.new buf.new
        msg.now result answer.new }
{
    let a = take::take(port, store, msg, buf);
    match a.reply {
        Ok(
            Reply::NewCommand {
                tag,
                lun,
                cdb,
                waits,
            },
        ) => {
            *answer = answer::command_words(a.wrote, tag, lun, cdb, waits);
            0
        }
        _ => port::give(answer, a),
    }
}

pub fn srp_target_tables(
    port: &mut [u64; PORT],
    store: &mut [u8; STORE],
    tag: u64,
    out: &[u8],
    inn: &[u8],
    buf: &mut [u8],
    answer: &mut [u64; 8],
) -> u32
    ensures { TablesInC
        port.old store.old buf.old port.new store.new buf.new
        tag (tables out.now inn.now) result answer.new }
{
    port::give_length(answer, tables::bring(port, store, tag, out, inn, buf))
}
