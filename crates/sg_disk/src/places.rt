// Where everything stands on a disk of format 1, and how many disk calls each change makes. Places are counted in
// bytes from the disk's start; those of a slot, an entry and a record from its own.

/// Where the fields of a header, a slot and a record begin. Before them stand the gate, which is one byte, and three more.
pub const FIELDS: u64 = 4;

/// The header's length, and where its fields stand: the version, the mark, the display, the epoch, and the length of the data
/// area.
pub const HEADER_LEN: u64 = 4_096;

pub const VERSION: u64 = 4;

pub const MARK: u64 = 8;

pub const DISPLAY: u64 = 16;

pub const EPOCH: u64 = 20;

pub const ROOM: u64 = 24;

/// Where the two slots begin, and the length of each.
pub const SLOT_ZERO: u64 = 4_096;

pub const SLOT_ONE: u64 = 1_073_152;

pub const SLOT_LEN: u64 = 1_069_056;

/// Where the fields of a slot stand: the switch number, the length of the manifest's text, and the number of files.
pub const NUMBER: u64 = 4;

pub const TEXT_LEN: u64 = 8;

pub const COUNT: u64 = 12;

/// Where the table of files and the manifest's text begin in a slot, and the table's length.
pub const TABLE: u64 = 4_096;

pub const TEXT: u64 = 20_480;

pub const TABLE_LEN: u64 = 16_384;

/// The length of a table entry, and where the file's length, its MD5 and its place stand in it, behind its medium.
pub const ENTRY_LEN: u64 = 32;

pub const FILE_LEN: u64 = 4;

pub const FILE_MD5: u64 = 8;

pub const FILE_PLACE: u64 = 24;

/// Where the journal begins, its length, and that of a record.
pub const JOURNAL: u64 = 2_142_208;

pub const JOURNAL_LEN: u64 = 4_194_304;

pub const RECORD_LEN: u64 = 64;

/// Where the data area begins, and the length of a page of it.
pub const DATA: u64 = 6_336_512;

pub const PAGE: u64 = 65_536;

/// The disk calls that a change is promised to take: at least so many pass where it answers Ok.
pub const SWITCH_CALLS: u64 = 8;

pub const APPEND_CALLS: u64 = 4;

pub const OPEN_CALLS: u64 = 2;

pub const FORMAT_CALLS: u64 = 2;
