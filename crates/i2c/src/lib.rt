// I2C for two sensor families: CRC-8, words, command bytes and register fields.
#![tactic(auto)]

pub mod command;
pub mod crc;
pub mod register;
pub mod word;
