// The limits of document 01, for the code: how many there may be of each, and the most of a figure (specs/Limits.antt).
// Ids of registrations, of sellers and LSEs (the parties of a statement), of areas and zones are below these; there are three products.
#![tactic(auto)]

pub const REGISTRATIONS: usize = 64;

pub const PARTIES: usize = 16;

pub const SELLERS: usize = PARTIES;

pub const LSES: usize = PARTIES;

pub const AREAS: usize = 8;

pub const ZONES: usize = 8;

pub const PRODUCTS: usize = 3;

// A group is a zone and a product: a group has one test.
pub const TEST_GROUPS: usize = PRODUCTS * ZONES;

// The events that a year takes, and the months that are closed.
pub const EVENT_LIMIT: usize = 16;

pub const CLOSES: usize = 15;

pub const CLOSE_LIMIT: u64 = CLOSES as u64;

// Kilowatts of one registration, nominated and unforced.
pub const NOMINATED_KW: u64 = 100_000;

pub const UNFORCED_KW: u64 = 144_000;

// The bytes of the largest statement.
pub const STATEMENT_BYTES: usize = 354;
