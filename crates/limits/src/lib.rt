// The limits, each as one named number that all code cites. specs/Numbers.antt of `rfc` has the same numbers for the definitions.
#![tactic(auto)]

// The fewest bytes of a message.
pub const LEAST_MESSAGE: usize = 240;

// The most bytes of a message, an area, a room or a value to be read.
pub const MOST_BYTES: usize = 65535;

// The most bytes of a value to be written.
pub const MOST_VALUE: usize = 4080;

// The most bytes of one part of a value.
pub const MOST_PART: usize = 255;
