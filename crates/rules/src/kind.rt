// The kinds of records but the head (document 01, 'The archive'), by the names of specs/Archive.antt. Numbers
// and no enum: chains::follow, walk_to and walk_all answer for every byte as a kind.

pub const PLANT: u8 = 1;

pub const POINT: u8 = 2;

pub const MEASURE: u8 = 3;

pub const BEFORE: u8 = 4;

pub const QUARTER: u8 = 5;
