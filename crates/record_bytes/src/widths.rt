//! That a record fits its bytes, which the types of its fields say. Nothing is done.
ghost use Rattle.std.specs.Prelude.{◌<◌, ◌^◌};
ghost use Rattle.record_bytes.specs.Layout.{Fits};
ghost use Rattle.record_bytes.specs.Fitting.{ListFits};

use thread_records::{OwnerList, Record};
use unique_index_set_enums::OwnerId;

fn wide(owner: OwnerId)
    ensures { owner.0 < 256 ^ 8 }
{}

// Stays: proof tried and not closed: the check finds the widths of a struct's fields by itself, but not those of an array's elements.
fn list_fits(list: OwnerList)
    ensures { ListFits list }
{
    wide(list.owners[0]);
    wide(list.owners[1]);
    wide(list.owners[2]);
    wide(list.owners[3]);
    wide(list.owners[4]);
    wide(list.owners[5]);
    wide(list.owners[6]);
    wide(list.owners[7]);
}

/// Any record does.
pub fn fits(thread: Record)
    ensures { Fits thread }
{
    list_fits(thread.list);
}
