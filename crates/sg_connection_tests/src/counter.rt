//! One that answers with the number of the message, or with a longer body.

ghost use Rattle.std.specs.Prelude.{◌≡◌};

use sg_base::Rows;
use sg_connection::{Answer, Answerer, Body};
use sg_http::{Form, Next};
use sg_text::Text;
use std::alloc::Global;

/// Says how many messages there were. Its keeper counts those that asked for the longer body.
#[derive(Drop)]
pub struct Counter {
    pub count: u64,
}

impl Answerer<u64> for Counter {
    ghost use Rattle.std.specs.Prelude.{◌≡◌};

    ghost answers = { λ s k m answer t l. answer.status ≡ 200 };

    #[tactic(auto, unfolding(sg_http::specs::Texts::reason))]
    fn answer(&mut self, alloc: Global, keeper: &mut u64, stream: &[u8], message: &Next) -> Answer {
        self.count = self.count.saturating_add(1);
        let mut text = Text::new();
        text.push_number(self.count);
        let mut body = Body::Short(text);
        if let Next::Message { target, .. } = message {
            if stream.get(target.from..target.to) == Some(b"/long".as_slice()) {
                *keeper = keeper.saturating_add(1);
                if let Ok(long) = Vec::from_slice(alloc, b"long") {
                    body = Body::Long(Rows::from_vec(long));
                }
            }
        }
        Answer {
            status: 200,
            form: Form::Octets,
            allow: None,
            body,
        }
    }
}
