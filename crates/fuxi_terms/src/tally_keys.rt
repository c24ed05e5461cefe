//! The kinds of keys of the tallies that the parties send one another: of grants from 1 to 3, of a demand from 1 to 5.

/// Of grants: a machine that is reported.
pub const REPORTED: u8 = 1;

/// Of grants: how many of a unit stand on a machine.
pub const COUNT: u8 = 2;

/// Of grants: what is credited of the number of a unit given back on a machine.
pub const CREDITED: u8 = 3;

/// Of a demand: how many of a unit are wanted in all.
pub const WANT: u8 = 1;

/// Of a demand: how many of a unit are wanted on a machine.
pub const NEAR: u8 = 2;

/// Of a demand: how many of a unit are wanted in a rack.
pub const RACK: u8 = 3;

/// Of a demand: a machine that a unit avoids.
pub const AVOID: u8 = 4;

/// Of a demand: how many of a unit are given back on a machine.
pub const BACK: u8 = 5;
