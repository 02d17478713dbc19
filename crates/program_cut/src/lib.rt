// The cut of the input into parts: by kinds and lengths, up to each end record.
#![tactic(auto)]

ghost use Rattle.std.specs.Prelude.{◌≡◌, eqb};
ghost use Rattle.rules.specs.Records.{numbers_of};
ghost use Rattle.program_cut.specs.Cut.{cut};

use bytes_read::Reader;
use rules::Record;

// Whether a record is the end record.
fn is_end(rec: Record) -> bool
    ensures { result ≡ eqb (numbers_of rec).kind 6 }
{
    matches!(rec, Record::End)
}

// The length of the first part of the bytes, read through one reader from record to record. Where no end record is reached, all that is
// left belongs to the part.
pub fn first_part(bytes: &[u8]) -> usize
    ensures { result ≡ cut bytes.now }
{
    let mut r = Reader::new(bytes, 0);
    while let Some((rec, next)) = r.read() {
        if is_end(rec) {
            return r.at + 1;
        }
        r.at = next;
    }
    bytes.len()
}
