// How many records of each sort a graph may have.
pub const MOST_NAMES: usize = 1024;

pub const MOST_MODULES: usize = 256;

// Of star records, of imports and of exports.
pub const MOST_RECORDS: usize = 1024;

// How many bytes a name and an id may have.
pub const LONGEST_NAME: usize = 255;

pub const LONGEST_ID: usize = 64;
