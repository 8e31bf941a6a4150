// The shape of an SRP_CMD: what every check before refusal 10 reads of it, and all that look needs.
ghost use Rattle.std.specs.Prelude.{◌≡◌, Ok, IfOk};
ghost use Rattle.srp.specs.Refusals.{first_of_checks, unless_bad};
ghost use Rattle.srp.specs.Requests.{command_of_lem, command_checks, look_checks};
ghost use Rattle.command.specs.Reading.{shape_of, FitsShape};

use crate::descriptors;
use srp::limits::{
    BOTH_FORMATS, LONGEST_AGREED, SHORTEST_AGREED, SHORTEST_COMMAND, SHORTEST_MESSAGE,
};
use srp::{Descriptor, Refusal};
use wire::layout::{ADDITIONAL, CDB, COMMAND, FORMATS, IN_COUNT, OUT_COUNT, SHORTEST_CDB};

// The CDB's length, and both descriptors but for their total lengths, which no check before refusal 10 reads.
#[derive(Clone, Copy)]
pub struct Shape {
    pub cdb: usize,
    pub out: Descriptor,
    pub inn: Descriptor,
}

// The shape of a command, or the first of the refusals 3, 5, 6, 3, 7, 8 that it draws.
pub fn read_shape(msg: &[u8], formats: u32) -> Result<Shape, Refusal>
    ensures shape { result ≡ unless_bad (first_of_checks (command_checks formats msg.now)) (Ok (shape_of (command_of_lem msg.now))) }
    ensures fits { IfOk result (FitsShape msg.now) }
{
    let SHORTEST_COMMAND.. = msg.len() else {
        return Err(Refusal::Length);
    };
    let out_format = wire::read_bits(msg, FORMATS, 4, 4);
    let Some(out_format) = descriptors::agreed_format(formats, out_format) else {
        return Err(Refusal::OutFormat);
    };
    let in_format = wire::read_bits(msg, FORMATS, 0, 4);
    let Some(in_format) = descriptors::agreed_format(formats, in_format) else {
        return Err(Refusal::InFormat);
    };
    let out_count = wire::read8(msg, OUT_COUNT);
    let in_count = wire::read8(msg, IN_COUNT);
    let cdb = SHORTEST_CDB + 4 * (wire::read_bits(msg, ADDITIONAL, 2, 6) as usize);
    let out_at = CDB + cdb;
    let in_at = out_at + descriptors::size(out_format, out_count);
    let Some([]) = msg.get(in_at + descriptors::size(in_format, in_count)..) else {
        return Err(Refusal::Length);
    };
    let Some(out) = descriptors::counted_descriptor(msg, out_format, out_count, out_at) else {
        return Err(Refusal::OutCount);
    };
    let Some(inn) = descriptors::counted_descriptor(msg, in_format, in_count, in_at) else {
        return Err(Refusal::InCount);
    };
    Ok(Shape { cdb, out, inn })
}

// Look's refusals 2, 3, 4, and then those of a command.
pub fn look_shape(msg: &[u8], agreed: u32, formats: u32) -> Result<Shape, Refusal>
    ensures shape { result ≡ unless_bad (first_of_checks (look_checks agreed formats msg.now)) (Ok (shape_of (command_of_lem msg.now))) }
    ensures fits { IfOk result (FitsShape msg.now) }
{
    let other_formats = wire::other_formats(BOTH_FORMATS, formats);
    let (SHORTEST_AGREED..=LONGEST_AGREED, false) = (agreed, other_formats) else {
        return Err(Refusal::Setting);
    };
    let left = (agreed as usize).checked_sub(msg.len());
    let (SHORTEST_MESSAGE.., Some(_)) = (msg.len(), left) else {
        return Err(Refusal::Length);
    };
    let COMMAND = wire::read8(msg, 0) else {
        return Err(Refusal::OtherType);
    };
    read_shape(msg, formats)
}
