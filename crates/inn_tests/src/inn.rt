// The small inn: three bays of two choices. Own prices are 10 and 20, 5 and 30, 0 and 15. One rule forbids choice 0 at the bays 0
// and 1 together; another charges 40 for it at the bays 1 and 2.

// As a book of cents.
pub const CENTS: [u8; 72] = [
    67, 84, 83, 0, 1, 3, 2, 2, 2, 2, 0, 0, 0, 10, 0, 0, 0, 20, 0, 0, 0, 5, 0, 0, 0, 30, 0, 0, 0, 0,
    0, 0, 0, 15, 2, 0, 1, 59, 154, 202, 0, 0, 0, 0, 0, 0, 0, 0, 0, 0, 0, 0, 0, 2, 1, 2, 0, 0, 0,
    40, 0, 0, 0, 0, 0, 0, 0, 0, 0, 0, 0, 0,
];

// The same as a book of waits.
pub const WAITS: [u8; 72] = [
    77, 73, 78, 0, 1, 3, 2, 2, 2, 2, 0, 0, 0, 10, 0, 0, 0, 20, 0, 0, 0, 5, 0, 0, 0, 30, 0, 0, 0, 0,
    0, 0, 0, 15, 2, 0, 1, 0, 0, 5, 161, 0, 0, 0, 0, 0, 0, 0, 0, 0, 0, 0, 0, 2, 1, 2, 0, 0, 0, 40,
    0, 0, 0, 0, 0, 0, 0, 0, 0, 0, 0, 0,
];
