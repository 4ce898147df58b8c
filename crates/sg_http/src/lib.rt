//! The messages of an HTTP/1.x stream, the replies to them, and a player's requests and what it reads of replies.
//!
//! Contracts see bytes. `Opens` of `specs/Messages.antt` says what a stream begins with: a whole message, less than one,
//! or none and the status that refuses it. `specs/Head.antt` says where a head ends, and `specs/Fields.antt` what its
//! fields say and which of them refuse it. The one thing that these definitions don't compute is whether some bytes are a
//! head of the grammar of RFC 9112, for which they cite `httparse`'s. `specs/Streams.antt` lists the messages of a whole
//! stream, `specs/Texts.antt` has the texts that are made here, and `specs/Replies.antt` what the bytes of a reply say. The
//! module `read_back` has the laws that join both sides.
#![tactic(auto)]

mod fields;
mod message;
mod next;
mod read_back;
mod reading;
mod reply;
mod request;
mod search;
mod text;

pub use message::{Next, Span, Verb};
pub use next::{Look, look_at, next_message, one_opening};
pub use read_back::{one_message, replies_read_back, requests_read_back};
pub use reading::{ReplyRead, read_reply};
pub use reply::{Form, ReplyHead, reply_bytes};
pub use request::request_bytes;
pub use search::{Progress, START};
pub use text::number;
