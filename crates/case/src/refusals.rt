// The refusals by their numbers, as include/hocsimbur.h names them; §2.1 has the table of all, with what line and column say. Those of
// measurements at the site, 12 to 14 and 17 to 19, stand in `readings` and `staged`, which know nothing about sheets.

// A sheet: its text, its names, the form of a value, the count of its value lines.
pub const REFUSED_TEXT: u32 = 1;

pub const REFUSED_NAME: u32 = 2;

pub const REFUSED_FORM: u32 = 3;

pub const REFUSED_LINES: u32 = 4;

// A case: a value out of its range, values that disagree; a second line of one station and season.
pub const REFUSED_RANGE: u32 = 5;

pub const REFUSED_PARTS: u32 = 6;

pub const REFUSED_REPEATED: u32 = 7;

// A table, buffer or array without room for what is asked.
pub const REFUSED_SHORT: u32 = 8;

// What the former form cannot say: three times, two counts, 50 Hz.
pub const REFUSED_TIMES: u32 = 9;

pub const REFUSED_COUNTS: u32 = 10;

pub const REFUSED_HERTZ: u32 = 11;

// A search for the fewest lines: a side out of its range, rods without a length.
pub const REFUSED_SIDE: u32 = 15;

pub const REFUSED_NO_RODLEN: u32 = 16;

// A table without room for the stations.
pub const REFUSED_SUMMARY: u32 = 20;

// A licence: its count of numbers, a station of it, a table without room for its stations.
pub const REFUSED_LICENCE: u32 = 21;

pub const REFUSED_STATION: u32 = 22;

pub const REFUSED_RELEASE: u32 = 23;
