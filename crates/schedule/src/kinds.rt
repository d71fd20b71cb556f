//! The kinds of entries, and what each asks of its bytes.
ghost use Rattle.std.specs.Prelude.{◌≡◌};
ghost use Rattle.schedule.specs.Format.{body_of, kind_of, lacks_count, right_length};

use crate::{Entry, ListEntry, NoEntry, SetupEntry, StartEntry};
use byte_numbers::{byte_at, number4, number8};
use calls::Request;
use unique_index_set_enums::{OwnerId, RecordNumber};

#[derive(Clone, Copy)]
pub(crate) enum Kind {
    Setup,
    Start,
    Step,
    Death,
    List,
}

impl TryFrom<u16> for Kind {
    type Error = NoEntry;

    ghost try_from_gives = { λ number kind. kind ≡ kind_of number };

    #[tactic(auto, unfolding(crate::specs::Format::kind_of))]
    fn try_from(number: u16) -> Result<Self, NoEntry> {
        match number {
            1 => Ok(Kind::Setup),
            2 => Ok(Kind::Start),
            3 => Ok(Kind::Step),
            4 => Ok(Kind::Death),
            5 => Ok(Kind::List),
            _ => Err(NoEntry::Bad),
        }
    }
}

impl Kind {
    // A list's count is the sixth byte.
    pub(crate) fn lacks_count(self, bytes: usize) -> bool
        ensures { result ≡ lacks_count self bytes }
    {
        matches!(self, Kind::List) && bytes < 6
    }

    // Whether an entry that says this length is of the kind, where a list has so many owners.
    pub(crate) fn right_length(self, length: u16, count: u8) -> bool
        ensures { result ≡ right_length self length count }
    {
        match self {
            Kind::Setup => length == 8,
            Kind::Start => length == 17,
            Kind::Step | Kind::Death => length == 3,
            Kind::List => length == 4 + 8 * u16::from(count),
        }
    }

    // The entry, where all its bytes are there.
    pub(crate) fn body(self, bytes: &[u8]) -> Entry
        ensures { result ≡ body_of bytes.now self }
    {
        let first = byte_at(bytes, 4);
        let second = byte_at(bytes, 5);
        let who = RecordNumber(first);
        match self {
            Kind::Setup => Entry::Setup(SetupEntry {
                set: first,
                records: second,
                capacity: number4(bytes, 6),
            }),
            Kind::Start => Entry::Start(StartEntry {
                who,
                request: Request {
                    call: second,
                    index_or_room: number4(bytes, 6),
                    owner: OwnerId(number8(bytes, 10)),
                    mode: byte_at(bytes, 18),
                },
            }),
            Kind::Step => Entry::Step(who),
            Kind::Death => Entry::Death(who),
            Kind::List => Entry::List(ListEntry { who, count: second }),
        }
    }
}
