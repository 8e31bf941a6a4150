// The listing, oldest first: by age, whatever the tags are; one in the middle is aborted, and its tag, used again, counts as taken anew.
use host::message::Message;
use host::paper::ABORT_TASK;
use owner::Session;
use std::io;

const OLDEST: u64 = 0x1d;

const SECOND: u64 = 0x1c;

const THIRD: u64 = 0x1b;

const TASK: u64 = 0x1e;

// Three commands, the second of which is aborted and comes again; then all end.
pub fn oldest_first(rt: &impl Print, s: &mut Session) -> io::Result<()> {
    println!(rt;
        "three commands open, listed oldest first; the second is aborted, and its tag used again is listed last"
    )?;
    for tag in [OLDEST, SECOND, THIRD] {
        s.submit(rt, Message::without_data(tag, 1))?;
    }
    s.take(rt)?;
    s.take(rt)?;
    s.take(rt)?;
    s.show_list(rt)?;
    s.submit(rt, Message::task(TASK, 1, ABORT_TASK, SECOND))?;
    s.take(rt)?;
    s.deliver(rt)?;
    s.show_list(rt)?;
    s.submit(rt, Message::without_data(SECOND, 1))?;
    s.take(rt)?;
    s.show_list(rt)?;
    s.finish(rt, OLDEST)?;
    s.finish(rt, THIRD)?;
    s.finish(rt, SECOND)
}
