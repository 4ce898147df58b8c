// What a step of a sync comes to.
use sg_base::MediaId;
use sg_manifest::ManifestFault;

/// Why a step of a sync came no further.
#[derive(Clone, Copy, Debug, PartialEq, Eq)]
pub enum Cause {
    /// The link failed, and has counted it.
    LinkFault,
    /// The reply was cut: the bytes of its body that came, and those that were to come, 0 where its head was cut.
    Cut {
        got: u64,
        length: u64,
    },
    /// Another status than 200.
    Status(u16),
    /// The body is the text of no valid manifest.
    Manifest(ManifestFault),
    /// The bytes of a file have another digest than the listed one.
    DigestDiffers {
        media: MediaId,
        listed: [u8; 16],
        found: [u8; 16],
    },
    /// A file finds no room: what it needs, and the most that there is.
    NoSpace {
        need: u64,
        largest: u64,
    },
    /// The body has another length than is wanted.
    Length {
        got: u64,
        expected: u64,
    },
    /// What came is no reply that has one length.
    NotHttp,
    /// There is no switch number left.
    Spent,
}

/// What a step of a sync came to.
#[derive(Clone, Copy, Debug, PartialEq, Eq)]
pub enum StepEnd {
    /// A snapshot was listed of which so many pieces are missing.
    Listed(u32),
    /// A piece of a medium came, from this offset on.
    Piece { media: MediaId, at: u32 },
    /// A medium is whole.
    Sealed(MediaId),
    /// The listed snapshot became the current one: its number, and the MD5 of its manifest.
    Switched { number: u32, md5: [u8; 16] },
    /// The current snapshot is that of the server.
    UpToDate,
    Stay(Cause),
}
