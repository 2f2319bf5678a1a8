// The listings of records of runs.
use crate::list::list;
use files::record::first_record;
use std::io;

// The listing of each record, one behind the other, up to one that is cut off.
pub(crate) fn list_records(rt: &impl Print, s: &[u8]) -> io::Result<()> {
    let mut rest = s;
    // Not a `for`: the next record begins where this one ends.
    while let Some((record, behind)) = first_record(rest) {
        list(rt, record.rule, record.table)?;
        rest = behind;
    }
    Ok(())
}
