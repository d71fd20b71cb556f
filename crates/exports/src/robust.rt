//! The calls of a robust set.
ghost use Rattle.std.specs.Prelude.{◌≡◌};
ghost use Rattle.unique_index_set_enums.specs.Kinds.{record_number};
ghost use Rattle.exports.specs.Outcomes.{RecordsLeft, records_left};
ghost use Rattle.exports.specs.Robust.{RobustReady, RobustStarted, RobustStepped, robust_lent, robust_ready, robust_start, robust_step, robust_drain, robust_list, RobustStartFits, RobustStepFits, RobustDrainFits};

use crate::brought::brought;
use crate::outcomes::{Outcome, outcome_of};
use byte_docks::{byte_setup, byte_turn, list};
use calls::{Request, SetKind};
use robust_unique_index_set::RobustUniqueIndexSet;
use turns::{Operation, RobustDock};
use unique_index_set_enums::{Generation, OwnerId, RecordNumber};

/// An accepted setup leaves the capacity asked and generation 0.
#[unsafe(no_mangle)]
pub extern "C" fn husk_robust_setup(
    capacity: &mut u32,
    generation: &mut u64,
    records: &mut [u8],
    cells: &mut [u64],
    asked: u32,
) -> Outcome
    ensures { record { outcome = result; capacity = capacity.new; generation = generation.new; records = records.new; cells = cells.new } ≡ robust_ready asked (robust_lent capacity.old generation.old cells.old) records.old }
{
    let set = RobustUniqueIndexSet {
        capacity: *capacity,
        generation: Generation(*generation),
    };
    let mut dock = RobustDock { set, cells };
    let done = byte_setup(records, &mut dock, asked);
    *capacity = dock.set.capacity;
    *generation = dock.set.generation.0;
    outcome_of(done.report, done.steps)
}

/// A start touches no shared word.
#[unsafe(no_mangle)]
pub extern "C" fn husk_robust_start(
    capacity: u32,
    generation: u64,
    records: &mut [u8],
    who: u8,
    cells: &mut [u64],
    call: u8,
    index_or_room: u32,
    owner: u64,
    mode: u8,
) -> Outcome
    ensures cells_after { record { outcome = result; records = records.new; cells = cells.new } ≡ robust_start (record_number who) call index_or_room owner mode (robust_lent capacity generation cells.old) records.old }
    ensures robust_start_fits { RobustStartFits (record_number who) call index_or_room owner mode (robust_lent capacity generation cells.old) records.old }
{
    let set = RobustUniqueIndexSet {
        capacity,
        generation: Generation(generation),
    };
    let mut dock = RobustDock { set, cells };
    let request = Request {
        call,
        index_or_room,
        owner: OwnerId(owner),
        mode,
    };
    let done = byte_turn(
        records,
        &mut dock,
        RecordNumber(who),
        Operation::Start(request),
    );
    outcome_of(done.report, done.steps)
}

/// One shared access.
#[unsafe(no_mangle)]
pub extern "C" fn husk_robust_step(
    capacity: u32,
    generation: &mut u64,
    records: &mut [u8],
    who: u8,
    cells: &mut [u64],
) -> Outcome
    ensures cells_after { record { outcome = result; generation = generation.new; records = records.new; cells = cells.new } ≡ robust_step (record_number who) (robust_lent capacity generation.old cells.old) records.old }
    ensures robust_step_fits { RobustStepFits (record_number who) (robust_lent capacity generation.old cells.old) records.old }
{
    let set = RobustUniqueIndexSet {
        capacity,
        generation: Generation(*generation),
    };
    let mut dock = RobustDock { set, cells };
    let done = byte_turn(records, &mut dock, RecordNumber(who), Operation::Step);
    *generation = dock.set.generation.0;
    outcome_of(done.report, done.steps)
}

/// Steps until the answer or the budget's end.
#[unsafe(no_mangle)]
pub extern "C" fn husk_robust_drain(
    capacity: u32,
    generation: &mut u64,
    records: &mut [u8],
    who: u8,
    cells: &mut [u64],
    budget: u32,
) -> Outcome
    ensures cells_after { record { outcome = result; generation = generation.new; records = records.new; cells = cells.new } ≡ robust_drain (record_number who) budget (robust_lent capacity generation.old cells.old) records.old }
    ensures robust_drain_fits { RobustDrainFits (record_number who) budget (robust_lent capacity generation.old cells.old) records.old }
{
    let set = RobustUniqueIndexSet {
        capacity,
        generation: Generation(*generation),
    };
    let mut dock = RobustDock { set, cells };
    let done = byte_turn(
        records,
        &mut dock,
        RecordNumber(who),
        Operation::Drain(budget),
    );
    *generation = dock.set.generation.0;
    outcome_of(done.report, done.steps)
}

/// A list is for the record's next accepted recover.
#[unsafe(no_mangle)]
pub extern "C" fn husk_robust_list(records: &mut [u8], who: u8, owners: &[u64]) -> Outcome
    ensures { record { outcome = result; records = records.new } ≡ robust_list (record_number who) owners.now records.old }
{
    outcome_of(
        list(SetKind::Robust, records, RecordNumber(who), brought(owners)),
        0,
    )
}
