//! Every limit of the product, each as one constant, which code, clauses and definitions cite.

// ---- seconds, moments and days

/// The seconds of an hour.
pub const HOUR: u32 = 3_600;

/// The seconds of a day.
pub const DAY: u32 = 86_400;

/// The last second of a day, counted from 0.
pub const LAST_SECOND: u32 = 86_399;

/// The last moment: the Unix second that ends the year 2099.
pub const LAST_MOMENT: u32 = 4_102_444_799;

/// Where a time of an event ends at the latest: the local second that begins the year 2100.
pub const TIME_END: u32 = 4_102_444_800;

/// The first local second that may be asked about: a day and 7,199 seconds before 1970 begins.
pub const FIRST_LOCAL: i64 = -93_599;

/// The first local second that may not be asked about any more: three days after 2099 ends.
pub const LOCAL_END: i64 = 4_102_704_000;

/// The last day number, 2099-12-31. Day 0 is 1970-01-01.
pub const LAST_DAY: u32 = 47_481;

/// The first and the last date that may be asked about, as day numbers.
pub const FIRST_DATE: i64 = -3;

pub const DATE_END: i64 = 47_485;

// ---- zones

/// The most minutes by which local time is ahead of UTC or behind it.
pub const MAX_OFFSET: i32 = 840;

/// The most bytes of a POSIX TZ text.
pub const MAX_ZONE_TEXT: usize = 64;

// ---- rows

/// The most regions of a layout, and the most items of a region.
pub const MAX_REGIONS: usize = 16;

pub const MAX_ITEMS: usize = 64;

/// The most layouts of a campaign.
pub const MAX_CAMPAIGN_LAYOUTS: usize = 64;

/// The most dates of a daypart that have a window of their own.
pub const MAX_DATES: usize = 64;

/// The highest order and the highest priority of an event.
pub const MAX_ORDER: u32 = 65_535;

/// The most seconds of an hour that an interrupt asks for.
pub const MAX_SHARE: u32 = 3_600;

/// The longest step of a repeat.
pub const MAX_STEP: u32 = 1_000;

/// The highest layer of an event.
pub const MAX_LAYER: u32 = 1;

/// The most groups of a display, and the most groups and the most displays of an event.
pub const MAX_FEW: usize = 32;

/// The most letters and digits of a key.
pub const MAX_KEY: usize = 64;

// ---- the command line

/// The most bytes of a path or an address.
pub const MAX_PLACE: usize = 255;

// ---- files

/// The most bytes of a file.
pub const MAX_FILE_LEN: u64 = 67_108_864;

/// The bytes of each piece in which a file travels, the last one apart.
pub const PIECE_LEN: u32 = 65_536;

// ---- a manifest

pub const MANIFEST_FILES: u64 = 512;

pub const MANIFEST_LAYOUTS: u64 = 512;

pub const MANIFEST_CAMPAIGNS: u64 = 256;

pub const MANIFEST_DAYPARTS: u64 = 64;

pub const MANIFEST_EVENTS: u64 = 1_024;

/// The most bytes of a manifest's text.
pub const MANIFEST_TEXT: u64 = 1_048_576;

/// The most moments of one preview.
pub const PREVIEW_MOMENTS: usize = 1_000;

// ---- the server's rows

pub const MAX_MEDIA: u32 = 2_000;

/// The most bytes that all media together declare.
pub const MAX_MEDIA_BYTES: u64 = 536_870_912;

pub const MAX_LAYOUTS: u32 = 2_000;

pub const MAX_CAMPAIGNS: u32 = 500;

pub const MAX_DAYPARTS: u32 = 200;

pub const MAX_GROUPS: u32 = 500;

pub const MAX_DISPLAYS: u32 = 2_000;

pub const MAX_EVENTS: u32 = 5_000;

pub const MAX_CLIENTS: u32 = 1_000;

// ---- plays

/// The last epoch of a display.
pub const MAX_EPOCH: u32 = 65_535;

/// The most plays that a player records in an epoch.
pub const MAX_PLAYS: u64 = 4_294_967_294;

/// The most plays of an epoch that the program's server keeps.
pub const PLAYS_LIMIT: u32 = 20_000_000;

/// The most plays of one batch.
pub const BATCH_PLAYS: usize = 64;

/// The records of a player's journal.
pub const JOURNAL_RECORDS: u64 = 65_536;

// ---- messages and connections

/// The most bytes of a message's head, and the most of its fields.
pub const MAX_HEAD: usize = 16_384;

pub const MAX_FIELDS: usize = 64;

/// The most bytes of a message's body.
pub const MAX_BODY: u64 = 1_048_576;

/// The most bytes that are taken from one connection.
pub const MAX_TAKEN: u64 = 1_073_741_824;

// ---- a player's store and its input

/// The least length of a store's data area, of which every length is a multiple.
pub const ROOM_UNIT: u64 = 65_536;

/// The greatest length of a store's data area.
pub const MAX_ROOM: u64 = 1_073_741_824;

/// The most lines of a player's input, and the most bytes of one.
pub const MAX_LINES: u32 = 1_000_000;

pub const MAX_LINE: usize = 64;
