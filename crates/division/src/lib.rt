// How the 256 values of an SRP_CMD's byte 5 divide: in a message whose length never decides, each passes, draws 5 or draws 6.
// All are gone through, each by the decision on a format that look and take make.
#![tactic(auto)]

ghost use Rattle.std.specs.Prelude.{◌≡◌, ◌<◌};
ghost use Rattle.division.specs.Dividing.{values, drawn, divide_def, counted_in};

use srp::Refusal;
use srp::limits::BOTH_FORMATS;

// How many values a byte has.
const VALUES: u32 = 256;

// How many values pass, draw 5 and draw 6.
#[derive(Clone, Copy)]
pub struct Division {
    pub pass: u32,
    pub out: u32,
    pub inn: u32,
}

// One value more: bits 7-4 are the out format, which is judged first, bits 3-0 the in format.
fn counted(d: Division, formats: u32, byte: u8) -> Division
    requires { (d.pass < values) × (d.out < values) × (d.inn < values) }
    ensures { result ≡ counted_in d (drawn formats byte) }
{
    let Some(_) = command::agreed_format(formats, wire::bits_of(byte, 4, 4)) else {
        return Division {
            out: d.out + 1,
            ..d
        };
    };
    let Some(_) = command::agreed_format(formats, wire::bits_of(byte, 0, 4)) else {
        return Division {
            inn: d.inn + 1,
            ..d
        };
    };
    Division {
        pass: d.pass + 1,
        ..d
    }
}

// How many values pass, draw 5 and draw 6 with these formats agreed. Refused 2.
pub fn divide(formats: u32) -> Result<Division, Refusal>
    ensures { result ≡ divide_def formats }
{
    if wire::other_formats(BOTH_FORMATS, formats) {
        return Err(Refusal::Setting);
    }
    let mut d = Division {
        pass: 0,
        out: 0,
        inn: 0,
    };
    for byte in 0..VALUES {
        d = counted(d, formats, byte as u8);
    }
    Ok(d)
}
