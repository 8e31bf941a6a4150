// Look: how an SRP_CMD is read without state; its CDB and its segments as parts of what the caller lent; bad fields.
#![tactic(auto)]

mod descriptors;
mod given;
mod shape;
mod total;

ghost use Rattle.std.specs.Prelude.{◌≡◌, ◌≤◌, length, Ok, IfOk};
ghost use Rattle.srp.specs.Limits.{shortest_command};
ghost use Rattle.srp.specs.Refusals.{first_of_checks, unless_bad};
ghost use Rattle.srp.specs.Requests.{request_of_lem, command_of_lem, command_checks, look_checks, look_def, cdb_def, segments_def};
ghost use Rattle.srp.specs.Take.{waits};
ghost use Rattle.command.specs.Reading.{shape_of, FitsIn, FitsShape};

pub use descriptors::{agreed_format, fetched_length, size};
pub use given::{placeless, segment_list, standing, standing_size};
use shape::Shape;
use srp::{Command, Descriptor, Direction, Look, Refusal, Request};
pub use total::fields;
use wire::layout::{CDB, LUN, NOTIFICATION, SCSOLNT, TAG, UCSOLNT};

// What an SRP_CMD or SRP_TSK_MGMT is known by.
pub fn read_request(msg: &[u8]) -> Request
    requires { shortest_command ≤ length msg.now }
    ensures { result ≡ request_of_lem msg.now }
{
    Request {
        tag: wire::read64(msg, TAG),
        lun: wire::read64(msg, LUN),
        ucsolnt: wire::read_bits(msg, NOTIFICATION, UCSOLNT, 1) == 1,
        scsolnt: wire::read_bits(msg, NOTIFICATION, SCSOLNT, 1) == 1,
    }
}

// A command of which the shape was read: its other fields.
fn command_of(msg: &[u8], shape: Shape) -> Command
    requires shape_value { shape ≡ shape_of (command_of_lem msg.now) }
    requires fits_shape { FitsShape msg.now shape }
    ensures { (result ≡ command_of_lem msg.now) × FitsIn msg.now result }
{
    let Shape { cdb, out, inn } = shape;
    Command {
        request: read_request(msg),
        cdb,
        out: Descriptor {
            total: descriptors::total_length(msg, out),
            ..out
        },
        inn: Descriptor {
            total: descriptors::total_length(msg, inn),
            ..inn
        },
    }
}

// A command, or the first of the refusals 3, 5, 6, 3, 7, 8 that it draws.
pub fn read_command(msg: &[u8], formats: u32) -> Result<Command, Refusal>
    ensures command { result ≡ unless_bad (first_of_checks (command_checks formats msg.now)) (Ok (command_of_lem msg.now)) }
    ensures fits { IfOk result (FitsIn msg.now) }
{
    Ok(command_of(msg, shape::read_shape(msg, formats)?))
}

// The same behind look's refusals.
pub fn look_command(msg: &[u8], agreed: u32, formats: u32) -> Result<Command, Refusal>
    ensures command { result ≡ unless_bad (first_of_checks (look_checks agreed formats msg.now)) (Ok (command_of_lem msg.now)) }
    ensures fits { IfOk result (FitsIn msg.now) }
{
    Ok(command_of(msg, shape::look_shape(msg, agreed, formats)?))
}

// Whether a command waits for its tables: one is to be fetched, in either direction.
pub fn waits(c: Command) -> bool
    ensures { result ≡ waits c }
{
    fetched_length(c.out) != 0 || fetched_length(c.inn) != 0
}

// Look: the table to fetch for each direction, or the refusal.
pub fn look(msg: &[u8], agreed: u32, formats: u32) -> Result<Look, Refusal>
    ensures { result ≡ look_def agreed formats msg.now }
{
    let shape = shape::look_shape(msg, agreed, formats)?;
    Ok(Look {
        out: descriptors::fetch(msg, shape.out),
        inn: descriptors::fetch(msg, shape.inn),
    })
}

// The CDB, a part of the message; empty where look refuses it.
pub fn cdb(msg: &[u8], agreed: u32, formats: u32) -> &[u8]
    ensures { result.now ≡ cdb_def agreed formats msg.now }
{
    let Ok(c) = look_command(msg, agreed, formats) else {
        return &[];
    };
    &msg[CDB..CDB + c.cdb]
}

// The segments of a direction; empty where look refuses the message.
pub fn segments<'a>(
    msg: &'a [u8],
    table: &'a [u8],
    direction: Direction,
    agreed: u32,
    formats: u32,
) -> &'a [u8]
    ensures { result.now ≡ segments_def direction agreed formats msg.now table.now }
{
    let Ok(c) = look_command(msg, agreed, formats) else {
        return &[];
    };
    let d = match direction {
        Direction::Out => c.out,
        Direction::In => c.inn,
    };
    segment_list(standing(msg, d), table, d)
}
