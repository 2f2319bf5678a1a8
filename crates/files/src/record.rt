// Records of runs: the lengths of the rule, the table, the work buffer, the output and what is wanted, four bytes each, then the rule, the table
// and what is wanted.
ghost use Rattle.std.specs.Prelude.{◌<◌, length, IfSome, IfNone};
ghost use Rattle.files.specs.Records.{record_end, RecordRead};

use layout::number::read_u32;

// A run: its rule and table, the lengths of its buffers, and what is wanted of it.
#[derive(Clone, Copy)]
pub struct Record<'a> {
    pub rule: &'a [u8],
    pub table: &'a [u8],
    pub work: usize,
    pub output: usize,
    pub want: &'a [u8],
}

// The bytes before the rule.
const HEAD: usize = 20;

// The record at the start of a slice, and the bytes behind it; none where it is cut off.
pub fn first_record(s: &[u8]) -> Option<(Record<'_>, &[u8])>
    ensures record { IfSome result (λ p. RecordRead s.now p.0 p.1.now) }
    ensures shorter { IfSome result (λ p. length p.1.now < length s.now) }
    ensures cut { IfNone result (length s.now < record_end s.now) }
{
    let table_at = HEAD + read_u32(s, 0) as usize;
    let want_at = table_at + read_u32(s, 4) as usize;
    let end = want_at + read_u32(s, 16) as usize;
    if s.len() < end {
        return None;
    }
    let record = Record {
        rule: &s[HEAD..table_at],
        table: &s[table_at..want_at],
        work: read_u32(s, 8) as usize,
        output: read_u32(s, 12) as usize,
        want: &s[want_at..end],
    };
    Some((record, &s[end..]))
}
