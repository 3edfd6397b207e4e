// Sizes, start values, the kinds of a log's records and the marks of two logs compared for C: constants of the header.
use compare::{DIFFER, ONLY_A, ONLY_B, SAME};
use i2c::word::{LIQUID_START, SFC6_START};
use wire_log::reader::{REPLY_SIDE, REQUEST_SIDE, SILENCE_MARK};

// The bytes of a receiver's record.
pub const RECORD_SIZE: usize = 268;

// The bytes that mfc_feed needs for a frame's body.
pub const FRAME_ROOM: usize = 260;

// The longest frame that mfc_write_request writes: 7E, command, L, subcommand, 7E, and all of address, value and checksum stuffed.
pub const REQUEST_ROOM: usize = 17;

// The longest frame that mfc_write_reply writes: 7E, command, state, L, the text's 00, 7E, and all of address, checksum and a text of 254
// bytes stuffed.
pub const REPLY_ROOM: usize = 518;

// The start value of the CRC of liquid sensors.
pub const START_LIQUID: u8 = LIQUID_START;

// The start value of the CRC of SFC6.
pub const START_SFC6: u8 = SFC6_START;

// The places of a handover board's table.
pub const BOARD_PLACES: usize = 32;

// Room for any shift log: 65,000 bytes of records, and the eight that close it.
pub const LOG_ROOM: usize = 65008;

// The most records that a log has: 65,000 bytes, 3 for each without a body.
pub const LOG_RECORDS: usize = 21666;

// The numbers of a row of a log's list.
pub const LOG_ROW: usize = 3;

// A record of request-side bytes.
pub const LOG_REQUEST: u8 = REQUEST_SIDE;

// A record of reply-side bytes.
pub const LOG_REPLY: u8 = REPLY_SIDE;

// A silence mark, without a body.
pub const LOG_SILENCE: u8 = SILENCE_MARK;

// The mark of a place at which two logs have the same record.
pub const LOG_SAME: u8 = SAME;

// The mark of a place at which their records differ in kind or body.
pub const LOG_DIFFER: u8 = DIFFER;

// The mark of a place at which only the first has a record.
pub const LOG_ONLY_A: u8 = ONLY_A;

// The mark of a place at which only the second has a record.
pub const LOG_ONLY_B: u8 = ONLY_B;
