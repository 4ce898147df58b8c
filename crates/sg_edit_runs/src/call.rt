//! The calls of a server, as data, and what they are answered.

use sg_base::{DisplayId, Key, MediaId, PlayBody, Rows};
use sg_edits::PieceReply;
use sg_records::Reply;
use sg_steps::{CmsFault, Edit, EnrolReply, PlaysReply};

/// One call of a server.
#[derive(Debug, Drop)]
pub enum Call {
    /// An edit of a client, with its number.
    Edit {
        client: u32,
        seq: u32,
        edit: Edit,
    },
    /// Bytes of a medium, from an offset on.
    Piece {
        media: MediaId,
        offset: u32,
        bytes: Rows<u8>,
    },
    /// A display asks for its next epoch.
    Enrol(DisplayId),
    /// A batch of plays of an epoch, of which the first has this number.
    Plays {
        display: DisplayId,
        epoch: u32,
        first: u32,
        list: Rows<PlayBody>,
    },
    /// The server is loaded again from its keeper's rows.
    Load,
}

/// What a call is answered.
#[derive(Clone, Copy, Debug, PartialEq, Eq)]
pub enum Answer {
    Edited(Reply),
    Put(PieceReply),
    Enrolled(EnrolReply),
    Played(PlaysReply),
    Loaded,
    /// The keeper failed, or memory ran out. The server and its rows are as they were.
    Failed(CmsFault),
    /// The server isn't loaded again, since this row of its keeper may not be kept.
    BadRow(Key),
}
