//! The parts of the record of a number, out of its bytes.
ghost use Rattle.std.specs.Prelude.{◌≡◌, ◌*◌};
ghost use Rattle.record_bytes.specs.Layout.{counting_at, call_at, list_at};

use crate::RECORD_BYTES;
use byte_numbers::{byte_at, number4, number8};
use std::array;
use thread_records::{Counting, OwnerList, Remembered};
use unique_index_set_enums::{Generation, Index, OwnerId, RecordNumber};

fn read_counting(bytes: &[u8], who: RecordNumber) -> Counting
    ensures { result ≡ counting_at bytes.now (132 * who.0) }
{
    let at = RECORD_BYTES * usize::from(who.0);
    Counting {
        generation: Generation(number8(bytes, at + 52)),
        cell: Index(number4(bytes, at + 20)),
        counted: number4(bytes, at + 24),
        bump: Generation(number8(bytes, at + 60)),
    }
}

pub(crate) fn read_call(bytes: &[u8], who: RecordNumber) -> Remembered
    ensures { result ≡ call_at bytes.now (132 * who.0) }
{
    let at = RECORD_BYTES * usize::from(who.0);
    Remembered {
        place: byte_at(bytes, at + 1),
        mode: byte_at(bytes, at + 2),
        index: Index(number4(bytes, at + 4)),
        seen: number8(bytes, at + 28),
        value: number4(bytes, at + 8),
        owner: OwnerId(number8(bytes, at + 36)),
        generation: Generation(number8(bytes, at + 44)),
        reported: number4(bytes, at + 12),
        room: number4(bytes, at + 16),
        counting: read_counting(bytes, who),
    }
}

pub(crate) fn read_list(bytes: &[u8], who: RecordNumber) -> OwnerList
    ensures { result ≡ list_at bytes.now (132 * who.0) }
{
    let at = RECORD_BYTES * usize::from(who.0);
    OwnerList {
        count: byte_at(bytes, at + 3),
        owners: array::from_fn(|place| OwnerId(number8(bytes, at + 68 + 8 * place))),
    }
}
