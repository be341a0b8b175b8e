// The limits of a candidate, and the lengths of what is lent: each is named once, and the lengths follow from the limits.

// The newest edition; the oldest is 1.
pub const NEWEST_EDITION: usize = 2;

// Rules are numbered from 1 to below this.
pub const RULES_END: u32 = 37;

// N, T and P are at most these.
pub const MOST_ACTIONS: usize = rows::SIZE;

pub const MOST_THREADS: usize = 16;

pub const MOST_PLACES: usize = 64;

// Relations that are given, that stand in the store, and in the book.
pub const GIVEN_RELATIONS: usize = 7;

pub const ALL_RELATIONS: usize = 18;

pub const BOOK_RELATIONS: usize = 22;

// Numbers that the given relations fill, of the store, and of the desk, which the book is laid on.
pub const GIVEN_LENGTH: usize = rows::AREA * GIVEN_RELATIONS;

pub const STORE_LENGTH: usize = rows::AREA * ALL_RELATIONS;

pub const DESK_LENGTH: usize = rows::AREA * BOOK_RELATIONS;

// Bytes of the order buffer.
pub const ORDER_LENGTH: usize = MOST_ACTIONS;
