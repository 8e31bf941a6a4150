// What the owner reads of a port: its counters and its open commands. A listing is an array of 16 records by value; list_into copies it to a lent list.
#![tactic(auto)]

ghost use Rattle.std.specs.Prelude.{◌≡◌, ◌<◌, get_or};
ghost use Rattle.words.specs.Sizes.{most_slots};
ghost use Rattle.words.specs.Slots.{slots, no_slot};
ghost use Rattle.report.specs.Reports.{slot_record, HasRoom, CountFor, TellsCounters, TellsListing, TellsListingFor, WritesListing};

use srp::{Counters, Record, Refusal, Reply};
use state::opening;
use words::{PORT, SLOTS, Slot, commands};

// A listing: its reply, how many records a lent list is to have of it, and its records, blank behind those of the open commands.
#[derive(Clone, Copy)]
pub struct Listing {
    pub reply: Result<Reply, Refusal>,
    pub count: usize,
    pub records: [Record; SLOTS],
}

// A lent list as it comes back, and the listing's reply.
#[derive(Clone, Copy)]
pub struct Lent {
    pub reply: Result<Reply, Refusal>,
    pub records: [Record; SLOTS],
}

// W, A, H and D. Refused 21.
pub fn counters(s: &[u64; PORT]) -> Result<Reply, Refusal>
    ensures { TellsCounters s.now result }
{
    let h = opening::open_head(s)?;
    let held = h.held as u8;
    Ok(Reply::Counts(Counters {
        wanted: h.wanted,
        announced: h.announced,
        held,
        owed: (h.wanted as i64) - ((h.announced + held) as i64),
    }))
}

// What a listing says of a command.
fn record_of(c: Slot) -> Record
    ensures { result ≡ slot_record c }
{
    Record {
        tag: c.request.tag,
        lun: c.request.lun,
        out: c.out.transfer.highest,
        inn: c.inn.transfer.highest,
    }
}

// The record of the command in slot i.
pub fn record_at(s: &[u64; PORT], i: usize) -> Record
    requires i_lt_most_slots { i < most_slots }
    ensures { result ≡ slot_record (get_or (slots s.now) i no_slot) }
{
    record_of(commands::load(s, i))
}

// How many records a listing has in a lent list of `room`. Refused 21, 11.
pub fn held_for(s: &[u64; PORT], room: usize) -> Result<usize, Refusal>
    ensures { HasRoom s.now room result }
{
    let h = opening::open_head(s)?;
    if room < SLOTS {
        return Err(Refusal::Argument);
    }
    Ok(h.held)
}

// The same as a reply.
pub fn count_for(s: &[u64; PORT], room: usize) -> Result<Reply, Refusal>
    ensures { CountFor s.now room result }
{
    Ok(Reply::Listed(held_for(s, room)?))
}

// The open commands, oldest first, and blank records behind them. Refused 21.
pub fn list(s: &[u64; PORT]) -> Listing
    ensures { TellsListing s.now result }
{
    let held = held_for(s, SLOTS);
    let count = held.unwrap_or(0);
    let mut records = [Record::default(); SLOTS];
    for (i, record) in records[..count].iter_mut().enumerate() {
        *record = record_at(s, i);
    }
    Listing {
        reply: held.map(Reply::Listed),
        count,
        records,
    }
}

// What is written to a lent list of `room` records: nothing where the listing is refused, 21, 11.
pub fn listing_for(s: &[u64; PORT], room: usize) -> Listing
    ensures { TellsListingFor s.now room result }
{
    let n = held_for(s, room);
    Listing {
        reply: n.map(Reply::Listed),
        count: n.unwrap_or(0),
        ..list(s)
    }
}

// The open commands, listed into a lent list of records, oldest first; the rest of the list is untouched. Refused 21, 11.
pub fn list_into(s: &[u64; PORT], records: &mut [Record]) -> Result<Reply, Refusal>
    ensures { WritesListing s.now records.old records.new result }
{
    let listing = listing_for(s, records.len());
    let n = listing.count;
    records[..n].copy_from_slice(&listing.records[..n]);
    listing.reply
}

// The open commands, listed into a list that the caller has by value, which is lent to list_into and handed back. Refused 21.
pub fn lend(s: &[u64; PORT], mut records: [Record; SLOTS]) -> Lent
    ensures { WritesListing s.now records result.records result.reply }
{
    let reply = list_into(s, &mut records);
    Lent { reply, records }
}
