// The rights that the kernel asks for, by their numbers in a rights code. They are
// numbers and no enum, since a rule answers any: those from 13 on are its user's.
pub const DLTRTS: u8 = 0;

pub const ENVRTS: u8 = 1;

pub const LOADRTS: u8 = 2;

pub const STORTS: u8 = 3;

pub const APPRTS: u8 = 4;

pub const KILLRTS: u8 = 5;

pub const GETRTS: u8 = 6;

pub const PUTRTS: u8 = 7;

pub const ADDRRTS: u8 = 8;

pub const MDFYRTS: u8 = 9;

pub const UCNFRTS: u8 = 10;

pub const CALLRTS: u8 = 11;

pub const ERASERTS: u8 = 12;
