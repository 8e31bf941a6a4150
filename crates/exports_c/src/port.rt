// The calls on a port but take and tables, under their names in C.
ghost use Rattle.std.specs.Prelude.{◌≡◌};
ghost use Rattle.words.specs.Sizes.{port_words};
ghost use Rattle.exports.specs.Calls.{LoginInC, PlanInC, MoveInC, StepInC, TurnInC, FinishInC, AddInC, WithdrawInC, GrantInC, CloseInC, CountersInC, ListInC};

use words::{PORT, STORE};

// Words of a port.
#[unsafe(no_mangle)]
pub extern "C" fn srp_target_words() -> u64
    ensures { result ≡ port_words }
{
    exports::port::srp_target_words()
}

#[unsafe(no_mangle)]
pub extern "C" fn srp_target_login(
    port: &mut [u64; PORT],
    settings: &[u32; 5],
    boundary: u64,
    own: &[u8; 16],
    msg: &[u8],
    buf: &mut [u8],
    answer: &mut [u64; 8],
) -> u32
    ensures { LoginInC buf.old port.new buf.new
        settings.now boundary own.now msg.now result answer.new }
{
    exports::port::srp_target_login(port, settings, boundary, own, msg, buf, answer)
}

#[unsafe(no_mangle)]
pub extern "C" fn srp_target_plan(port: &mut [u64; PORT], tag: u64, out: u32, inn: u32) -> u32
    ensures { PlanInC port.old port.new tag out inn result }
{
    exports::port::srp_target_plan(port, tag, out, inn)
}

#[unsafe(no_mangle)]
pub extern "C" fn srp_target_move(
    port: &mut [u64; PORT],
    tag: u64,
    direction: u32,
    offset: u32,
    count: u32,
) -> u32
    ensures { MoveInC port.old port.new tag direction offset count result }
{
    exports::port::srp_target_move(port, tag, direction, offset, count)
}

#[unsafe(no_mangle)]
pub extern "C" fn srp_target_step(
    port: &mut [u64; PORT],
    store: &[u8; STORE],
    tag: u64,
    direction: u32,
    answer: &mut [u64; 8],
) -> u32
    ensures { StepInC port.old port.new store.now tag direction result answer.new }
{
    exports::port::srp_target_step(port, store, tag, direction, answer)
}

#[unsafe(no_mangle)]
pub extern "C" fn srp_target_turn(
    port: &mut [u64; PORT],
    store: &[u8; STORE],
    answer: &mut [u64; 8],
) -> u32
    ensures { TurnInC port.old port.new store.now result answer.new }
{
    exports::port::srp_target_turn(port, store, answer)
}

#[unsafe(no_mangle)]
pub extern "C" fn srp_target_finish(
    port: &mut [u64; PORT],
    tag: u64,
    status: u8,
    sense: &[u8],
    buf: &mut [u8],
    answer: &mut [u64; 8],
) -> u32
    ensures { FinishInC port.old buf.old port.new buf.new
        tag status sense.now result answer.new }
{
    exports::port::srp_target_finish(port, tag, status, sense, buf, answer)
}

#[unsafe(no_mangle)]
pub extern "C" fn srp_target_add(port: &mut [u64; PORT], k: u32) -> u32
    ensures { AddInC port.old port.new k result }
{
    exports::port::srp_target_add(port, k)
}

#[unsafe(no_mangle)]
pub extern "C" fn srp_target_withdraw(port: &mut [u64; PORT], k: u32) -> u32
    ensures { WithdrawInC port.old port.new k result }
{
    exports::port::srp_target_withdraw(port, k)
}

#[unsafe(no_mangle)]
pub extern "C" fn srp_target_grant(
    port: &mut [u64; PORT],
    buf: &mut [u8],
    answer: &mut [u64; 8],
) -> u32
    ensures { GrantInC port.old buf.old port.new buf.new result answer.new }
{
    exports::port::srp_target_grant(port, buf, answer)
}

#[unsafe(no_mangle)]
pub extern "C" fn srp_target_close(
    port: &mut [u64; PORT],
    reason: u32,
    buf: &mut [u8],
    answer: &mut [u64; 8],
) -> u32
    ensures { CloseInC port.old buf.old port.new buf.new reason result answer.new }
{
    exports::port::srp_target_close(port, reason, buf, answer)
}

#[unsafe(no_mangle)]
pub extern "C" fn srp_target_counters(port: &[u64; PORT], answer: &mut [u64; 8]) -> u32
    ensures { CountersInC port.now result answer.new }
{
    exports::port::srp_target_counters(port, answer)
}

#[unsafe(no_mangle)]
pub extern "C" fn srp_target_list(
    port: &[u64; PORT],
    records: &mut [u64],
    answer: &mut [u64; 8],
) -> u32
    ensures { ListInC port.now records.old records.new result answer.new }
{
    exports::port::srp_target_list(port, records, answer)
}
