// Task management: which open commands a request's function aborts, and the RSP_CODE that answers it.
#![tactic(auto)]

ghost use Rattle.std.specs.Prelude.{◌≡◌};
ghost use Rattle.srp.specs.Take.{whole_lun_lem, task_code};

use srp::{Request, TaskRequest};

// Functions: the first aborts one command, the next three every command of their LUN, the last is not supported.
const ABORT_TASK: u8 = 0x01;

const ABORT_TASK_SET: u8 = 0x02;

const CLEAR_TASK_SET: u8 = 0x04;

const LOGICAL_UNIT_RESET: u8 = 0x08;

const CLEAR_ACA: u8 = 0x40;

// RSP_CODEs
const COMPLETE: u8 = 0x00;

pub const FIELDS_INVALID: u8 = 0x02;

const NOT_SUPPORTED: u8 = 0x04;

// Whether a function aborts every command of its LUN.
fn whole_lun(function: u8) -> bool
    ensures { result ≡ whole_lun_lem function }
{
    matches!(
        function,
        ABORT_TASK_SET | CLEAR_TASK_SET | LOGICAL_UNIT_RESET
    )
}

// Whether a task request aborts the open command that came as request r.
pub fn aborts(t: TaskRequest, r: Request) -> bool
    ensures { result ≡ Rattle.srp.specs.Take.aborts t r }
{
    let reached = whole_lun(t.function) || (t.function == ABORT_TASK && t.managed == r.tag);
    t.request.lun == r.lun && reached
}

// The RSP_CODE that answers a function.
pub fn code_of(function: u8) -> u8
    ensures { result ≡ task_code function }
{
    match function {
        ABORT_TASK => COMPLETE,
        _ if whole_lun(function) => COMPLETE,
        CLEAR_ACA => NOT_SUPPORTED,
        _ => FIELDS_INVALID,
    }
}
