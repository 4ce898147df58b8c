//! What the words ask for.

use sg_base::Moment;

/// A command with the values of its options. Texts are those of the words.
#[derive(Clone, Copy, Debug)]
pub enum Command<'a> {
    /// Makes the store of a display, with a data area of so many bytes.
    Format {
        store: &'a str,
        server: &'a str,
        display: u32,
        key: &'a str,
        room: u64,
    },
    /// Plays by the moments of the input. Of so many turns one syncs, or none where it is 0.
    Play {
        store: &'a str,
        server: &'a str,
        key: &'a str,
        every: u32,
        panel: Option<&'a str>,
    },
    /// Serves so many connections.
    Serve {
        db: &'a str,
        listen: &'a str,
        key: &'a str,
        connections: u32,
    },
    /// Makes the edits of the input.
    Edit {
        db: &'a str,
    },
    /// Reports the plays that begin from one moment on and before another, which doesn't come before it.
    Report {
        db: &'a str,
        from: Moment,
        to: Moment,
    },
    /// Runs the script of the input.
    Rehearse,
    /// Runs the script that is made of a number.
    Made(u32),
}
