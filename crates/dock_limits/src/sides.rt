//! Each of the two docks: a set, its buffers, and its table of records, of which the first are lent.
ghost use Rattle.call_lines.specs.Numbers.{least_of};
ghost use Rattle.dock_limits.specs.Lent.{PlainLentAs, RobustLentAs};

use call_lines::{least, same_cells, same_entries};
use call_reports::{tell_cells, tell_custody, tell_slots};
use dock::{Work, do_work};
use robust_unique_index_set::RobustUniqueIndexSet;
use std::io;
use thread_records::Record;
use turns::{Done, PlainDock, RobustDock};
use unique_index_set::UniqueIndexSet;
use unique_index_set_enums::Generation;

pub(crate) type Table = [Record; 17];

// Stays: no plainer as one over the trait: each would still build its own dock and compare its own buffers.
#[derive(Clone, Copy)]
pub(crate) struct PlainSide {
    set: UniqueIndexSet,
    slots: [u32; 8],
    custody: [u32; 8],
    pub(crate) table: Table,
}

// Stays: no plainer as one over the trait: each would still build its own dock and compare its own buffers.
#[derive(Clone, Copy)]
pub(crate) struct RobustSide {
    set: RobustUniqueIndexSet,
    cells: [u64; 8],
    pub(crate) table: Table,
}

impl PlainSide {
    pub(crate) fn new() -> PlainSide {
        PlainSide {
            set: UniqueIndexSet {
                capacity: 0,
                head: 0,
            },
            slots: [0; 8],
            custody: [0; 8],
            table: [Record::default(); 17],
        }
    }

    // The work for as many of the records; the rest stay.
    pub(crate) fn work(&mut self, records: usize, work: Work) -> Done
        ensures { PlainLentAs (least_of records 17) work self.old result self.new }
    {
        let mut slots = self.slots;
        let mut custody = self.custody;
        let mut table = self.table;
        let mut dock = PlainDock {
            set: self.set,
            slots: &mut slots[..],
            custody: &mut custody[..],
        };
        let done = do_work(&mut table[..least(records, 17)], &mut dock, work);
        let set = dock.set;
        *self = PlainSide {
            set,
            slots,
            custody,
            table,
        };
        done
    }

    pub(crate) fn is_same_set(&self, before: &PlainSide) -> bool {
        self.set == before.set
    }

    pub(crate) fn is_same_in_buffers(&self, before: &PlainSide) -> bool {
        same_entries(&self.slots, &before.slots) && same_entries(&self.custody, &before.custody)
    }

    pub(crate) fn tell(&self, rt: &impl Print) -> io::Result<()> {
        print!(rt; "set {} {:016x}", self.set.capacity(), self.set.head)?;
        tell_slots(rt, &self.slots)?;
        tell_custody(rt, &self.custody)
    }
}

impl RobustSide {
    pub(crate) fn new() -> RobustSide {
        RobustSide {
            set: RobustUniqueIndexSet {
                capacity: 0,
                generation: Generation(0),
            },
            cells: [0; 8],
            table: [Record::default(); 17],
        }
    }

    // The work for as many of the records; the rest stay.
    pub(crate) fn work(&mut self, records: usize, work: Work) -> Done
        ensures { RobustLentAs (least_of records 17) work self.old result self.new }
    {
        let mut cells = self.cells;
        let mut table = self.table;
        let mut dock = RobustDock {
            set: self.set,
            cells: &mut cells[..],
        };
        let done = do_work(&mut table[..least(records, 17)], &mut dock, work);
        let set = dock.set;
        *self = RobustSide { set, cells, table };
        done
    }

    pub(crate) fn is_same_set(&self, before: &RobustSide) -> bool {
        self.set == before.set
    }

    pub(crate) fn is_same_in_buffers(&self, before: &RobustSide) -> bool {
        same_cells(&self.cells, &before.cells)
    }

    pub(crate) fn tell(&self, rt: &impl Print) -> io::Result<()> {
        print!(rt; "set {} {}", self.set.capacity(), self.set.generation.0)?;
        tell_cells(rt, &self.cells)
    }
}
