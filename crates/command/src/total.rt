// B, the sum of a data buffer's segments, unless a field is bad (refusal 10).
ghost use Rattle.std.specs.Prelude.{◌≡◌, ◌≤◌, ◌%◌, length, take};
ghost use Rattle.srp.specs.Limits.{longest_table, most_copies};
ghost use Rattle.srp.specs.Descriptors.{standing_size_lem, giving, fetched, same_bytes, segments_of};
ghost use Rattle.command.specs.Reading.{stated_of, ListFits, FieldsRead};

use crate::descriptors;
use srp::Descriptor;
use wire::layout::INDIRECT;

// Whether the copies in the message are the table's first entries. More copies than it has entries are not.
fn copies_agree(copies: &[u8], table: &[u8]) -> bool
    ensures { result ≡ same_bytes copies.now (take (length copies.now) table.now) }
{
    copies.len() <= table.len() && wire::begins(copies, table)
}

// B of a table, whose total length is stated, unless that is another or a segment passes 2^64.
fn table_sum(table: &[u8], stated: u32) -> Option<u64>
    requires { (length table.now ≤ longest_table) × (length table.now % 16 ≡ 0) }
    ensures { (result ≡ stated_of stated (segments_of table.now)) × ListFits table.now result }
{
    let n = cut::sum(table)?;
    if n != (stated as u64) {
        return None;
    }
    Some(n)
}

// B of a direction, unless a field is bad (refusal 10). A table was fetched just where a good one is not whole in the message.
pub fn fields(standing: &[u8], table: &[u8], d: Descriptor) -> Option<u64>
    requires standing_len { length standing.now ≡ standing_size_lem d }
    requires count_le_most_copies { d.count ≤ most_copies }
    requires table_len { length table.now ≡ fetched d }
    ensures { FieldsRead (giving d standing.now) table.now result }
{
    if d.format != INDIRECT {
        return cut::sum(standing);
    }
    if !descriptors::good_table(d.len) {
        return None;
    }
    if table.is_empty() {
        return table_sum(standing, d.total);
    }
    if !copies_agree(standing, table) {
        return None;
    }
    table_sum(table, d.total)
}
