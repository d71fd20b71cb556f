//! The numbers of the robust set's places in a record: sixteen for each call, a sub-machine's behind the call's own. 64 and
//! 80 are the one place of is_locked and of find.
pub const ACQUIRE: u8 = 16;

pub const ACQUIRE_CELL: u8 = ACQUIRE + 1;

pub const ACQUIRE_CLOSE: u8 = ACQUIRE + 2;

pub const ACQUIRE_BUMP: u8 = ACQUIRE + 3;

pub const RELEASE: u8 = 32;

pub const RELEASE_BUMP: u8 = RELEASE + 1;

pub const RELEASE_LOCK: u8 = RELEASE + 3;

pub const BORROWED: u8 = 48;

pub const LOCKED: u8 = 64;

pub const FIND: u8 = 80;

pub const RECOVER: u8 = 96;

pub const RECOVER_LOAD: u8 = RECOVER + 1;

pub const RECOVER_EXCHANGE: u8 = RECOVER + 2;

pub const RECOVER_BUMP: u8 = RECOVER + 3;

pub const RECOVER_LOCK: u8 = RECOVER + 5;

pub const RECOVER_LAST_LOOK: u8 = RECOVER + 11;
