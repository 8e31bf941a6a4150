// A message to the port, read whole: a command, a task request, a credit response, the initiator's logout, or the refusal of 3 to 8 that it draws.
#![tactic(auto)]

ghost use Rattle.std.specs.Prelude.{◌≡◌, length, ◌≤◌};
ghost use Rattle.srp.specs.Limits.{shortest_message};
ghost use Rattle.srp.specs.Messages.{tsk_mgmt};
ghost use Rattle.srp.specs.Requests.{task_of, read_message_lem};
ghost use Rattle.request.specs.Reading.{FitsMessage, OtherRead};

use srp::limits::SHORTEST_MESSAGE;
use srp::{Message, Refusal, TaskRequest};
use wire::layout::{
    COMMAND, CRED_RSP, I_LOGOUT, SHORT_SIZE, TAG, TASK_FUNCTION, TASK_TAG, TSK_MGMT, TSK_MGMT_SIZE,
};

fn read_task(msg: &[u8]) -> TaskRequest
    requires { length msg.now ≡ tsk_mgmt.size }
    ensures { result ≡ task_of msg.now }
{
    TaskRequest {
        request: command::read_request(msg),
        function: wire::read8(msg, TASK_FUNCTION),
        managed: wire::read64(msg, TASK_TAG),
    }
}

// A message that is no command: of a known type and its length, or refused by 4 or 3.
fn read_other(msg: &[u8], kind: u8) -> Result<Message, Refusal>
    requires { shortest_message ≤ length msg.now }
    ensures { OtherRead kind msg.now result }
{
    match kind {
        TSK_MGMT if msg.len() == TSK_MGMT_SIZE => Ok(Message::TskMgmt(read_task(msg))),
        I_LOGOUT if msg.len() == SHORT_SIZE => Ok(Message::ILogout),
        CRED_RSP if msg.len() == SHORT_SIZE => Ok(Message::CredRsp(wire::read64(msg, TAG))),
        TSK_MGMT | I_LOGOUT | CRED_RSP => Err(Refusal::Length),
        _ => Err(Refusal::OtherType),
    }
}

// What a message says to a port with this agreed length and these agreed formats, or the one of the refusals 3 to 8 that it draws.
pub fn read_message(msg: &[u8], agreed: u32, formats: u32) -> Result<Message, Refusal>
    ensures reading { result ≡ read_message_lem agreed formats msg.now }
    ensures fits { FitsMessage msg.now result }
{
    let left = (agreed as usize).checked_sub(msg.len());
    let (SHORTEST_MESSAGE.., Some(_)) = (msg.len(), left) else {
        return Err(Refusal::Length);
    };
    let kind = wire::read8(msg, 0);
    let COMMAND = kind else {
        return read_other(msg, kind);
    };
    Ok(Message::Cmd(command::read_command(msg, formats)?))
}
