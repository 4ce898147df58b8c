//! What a message is answered, and what answers it.

ghost use Rattle.std.specs.Prelude.{◌≡◌, ℕ};
ghost use Rattle.sg_connection.specs.Exchanges.{body_bytes};
ghost use Rattle.sg_connection.specs.declared.answer.Answer.{Answer};
ghost use Rattle.sg_http.specs.Messages.{Request, Whole, seen};
ghost use Rattle.sg_http.specs.Texts.{IsAllow, IsStatus};

use sg_base::Rows;
use sg_http::{Form, Next, Verb};
use sg_text::Text;
use std::alloc::Global;

/// The body of an answer.
#[derive(Drop)]
pub enum Body {
    /// In fixed room: it takes no memory.
    Short(Text),
    Long(Rows<u8>),
}

/// The answer to a message.
#[derive(Drop)]
pub struct Answer {
    pub status: u16,
    pub form: Form,
    /// The method that the path takes, where another one was used.
    pub allow: Option<Verb>,
    pub body: Body,
}

impl Body {
    /// Its bytes.
    pub fn as_bytes(&self) -> &[u8]
        ensures { result.now ≡ body_bytes self.now }
    {
        match self {
            Body::Short(text) => text.as_bytes(),
            Body::Long(rows) => rows.as_slice(),
        }
    }
}

/// Answers messages, with a keeper beside it.
pub trait Answerer<K> {
    // What may be answered to a message, and what both may be after it.
    ghost answers: { Self → K → Request → Answer → Self → K → Type 0 };

    /// Answers a message of a stream.
    fn answer(&mut self, alloc: Global, keeper: &mut K, stream: &[u8], message: &Next) -> Answer
        ensures answered { (m : Request) (used : ℕ) → seen stream.now message.now ≡ Whole m used
            → answers self.old keeper.old m result self.new keeper.new }
        ensures status { IsStatus result.status }
        ensures allow { IsAllow result.status result.allow };
}
