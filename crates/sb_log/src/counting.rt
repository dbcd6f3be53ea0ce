//! The records of a whole chunk.

ghost use Rattle.std.specs.Prelude.{◌<◌, ◌^◌, length, IfOk, IfErr};
ghost use Rattle.sb_log.specs.Records.{HasRecords, IsBadAt};

use crate::reading::read_rec;

/// Behind whole records, or in front, the bytes from here on begin with no record.
#[derive(Clone, Copy, Debug, PartialEq, Eq)]
pub struct BadAt {
    pub offset: u32,
}

/// How many records the chunk is a row of.
pub fn count_records(chunk: &[u8]) -> Result<u32, BadAt>
    requires { length chunk.now < 2 ^ 32 }
    ensures ok { IfOk result (λ n. HasRecords chunk.now n) }
    ensures err { IfErr result (λ bad. IsBadAt chunk.now bad.offset) }
{
    let mut at = 0;
    let mut count = 0u32;
    while at < chunk.len() {
        let Some((_, len)) = read_rec(&chunk[at..]) else {
            return Err(BadAt { offset: at as u32 });
        };
        at += len;
        count += 1;
    }
    Ok(count)
}
