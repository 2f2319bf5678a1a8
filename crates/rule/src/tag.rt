// The tags of a rule's fields. Numbers with names and no enum: the walks are total on any bytes, and their definitions speak of the byte.
pub const COLUMN: u8 = 16;

pub const LITERAL: u8 = 17;

pub const NOT: u8 = 18;

pub const NEGATIVE: u8 = 19;

pub const IS_NOT_NULL: u8 = 20;

pub const CAST: u8 = 21;

pub const TRY_CAST: u8 = 22;

pub const EQUAL: u8 = 23;

pub const LESS: u8 = 24;

pub const CASE: u8 = 25;
