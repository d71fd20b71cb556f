//! The calls of a plain set.
ghost use Rattle.std.specs.Prelude.{◌≡◌};
ghost use Rattle.unique_index_set_enums.specs.Kinds.{record_number};
ghost use Rattle.exports.specs.Outcomes.{RecordsLeft, records_left};
ghost use Rattle.exports.specs.Plain.{PlainReady, PlainStarted, PlainStepped, plain_lent, plain_ready, plain_start, plain_step, plain_drain, plain_list, PlainStartFits, PlainStepFits, PlainDrainFits};

use crate::brought::brought;
use crate::outcomes::{Outcome, outcome_of};
use byte_docks::{byte_setup, byte_turn, list};
use calls::{Request, SetKind};
use turns::{Operation, PlainDock};
use unique_index_set::UniqueIndexSet;
use unique_index_set_enums::{OwnerId, RecordNumber};

/// An accepted setup leaves the capacity asked and a fresh head word.
#[unsafe(no_mangle)]
pub extern "C" fn husk_plain_setup(
    capacity: &mut u32,
    head: &mut u64,
    records: &mut [u8],
    slots: &mut [u32],
    custody: &mut [u32],
    asked: u32,
) -> Outcome
    ensures { record { outcome = result; capacity = capacity.new; head = head.new; records = records.new; slots = slots.new; custody = custody.new } ≡ plain_ready asked (plain_lent capacity.old head.old slots.old custody.old) records.old }
{
    let set = UniqueIndexSet {
        capacity: *capacity,
        head: *head,
    };
    let mut dock = PlainDock {
        set,
        slots,
        custody,
    };
    let done = byte_setup(records, &mut dock, asked);
    *capacity = dock.set.capacity;
    *head = dock.set.head;
    outcome_of(done.report, done.steps)
}

/// A start touches no shared word; a release's marks its index in custody.
#[unsafe(no_mangle)]
pub extern "C" fn husk_plain_start(
    capacity: u32,
    head: u64,
    records: &mut [u8],
    who: u8,
    slots: &mut [u32],
    custody: &mut [u32],
    call: u8,
    index_or_room: u32,
    owner: u64,
    mode: u8,
) -> Outcome
    ensures custody_after { record { outcome = result; records = records.new; slots = slots.new; custody = custody.new } ≡ plain_start (record_number who) call index_or_room owner mode (plain_lent capacity head slots.old custody.old) records.old }
    ensures plain_start_fits { PlainStartFits (record_number who) call index_or_room owner mode (plain_lent capacity head slots.old custody.old) records.old }
{
    let set = UniqueIndexSet { capacity, head };
    let mut dock = PlainDock {
        set,
        slots,
        custody,
    };
    let request = Request {
        call,
        index_or_room,
        owner: OwnerId(owner),
        mode,
    };
    let done = byte_turn(
        records,
        &mut dock,
        RecordNumber(who),
        Operation::Start(request),
    );
    outcome_of(done.report, done.steps)
}

/// One shared access.
#[unsafe(no_mangle)]
pub extern "C" fn husk_plain_step(
    capacity: u32,
    head: &mut u64,
    records: &mut [u8],
    who: u8,
    slots: &mut [u32],
    custody: &mut [u32],
) -> Outcome
    ensures custody_after { record { outcome = result; head = head.new; records = records.new; slots = slots.new; custody = custody.new } ≡ plain_step (record_number who) (plain_lent capacity head.old slots.old custody.old) records.old }
    ensures plain_step_fits { PlainStepFits (record_number who) (plain_lent capacity head.old slots.old custody.old) records.old }
{
    let set = UniqueIndexSet {
        capacity,
        head: *head,
    };
    let mut dock = PlainDock {
        set,
        slots,
        custody,
    };
    let done = byte_turn(records, &mut dock, RecordNumber(who), Operation::Step);
    *head = dock.set.head;
    outcome_of(done.report, done.steps)
}

/// Steps until the answer or the budget's end.
#[unsafe(no_mangle)]
pub extern "C" fn husk_plain_drain(
    capacity: u32,
    head: &mut u64,
    records: &mut [u8],
    who: u8,
    slots: &mut [u32],
    custody: &mut [u32],
    budget: u32,
) -> Outcome
    ensures custody_after { record { outcome = result; head = head.new; records = records.new; slots = slots.new; custody = custody.new } ≡ plain_drain (record_number who) budget (plain_lent capacity head.old slots.old custody.old) records.old }
    ensures plain_drain_fits { PlainDrainFits (record_number who) budget (plain_lent capacity head.old slots.old custody.old) records.old }
{
    let set = UniqueIndexSet {
        capacity,
        head: *head,
    };
    let mut dock = PlainDock {
        set,
        slots,
        custody,
    };
    let done = byte_turn(
        records,
        &mut dock,
        RecordNumber(who),
        Operation::Drain(budget),
    );
    *head = dock.set.head;
    outcome_of(done.report, done.steps)
}

/// A plain set takes no list.
#[unsafe(no_mangle)]
pub extern "C" fn husk_plain_list(records: &mut [u8], who: u8, owners: &[u64]) -> Outcome
    ensures { record { outcome = result; records = records.new } ≡ plain_list (record_number who) owners.now records.old }
{
    outcome_of(
        list(SetKind::Plain, records, RecordNumber(who), brought(owners)),
        0,
    )
}
