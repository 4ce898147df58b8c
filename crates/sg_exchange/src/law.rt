// What an answer comes to is one thing: laws of the definitions.
ghost use Rattle.std.specs.Prelude.{◌≡◌, ◌<◌, ◌^◌, ℕ, List};
ghost use Rattle.std.specs.declared.option.Option.{Option};
ghost use Rattle.sg_exchange.specs.declared.ends.BatchEnd.{BatchEnd};
ghost use Rattle.sg_exchange.specs.declared.ends.EnrolEnd.{EnrolEnd};
ghost use Rattle.sg_exchange.specs.declared.heard.Wants.{Wants};
ghost use Rattle.sg_exchange.specs.Ends.{BatchEnds, EnrolEnds};
ghost use Rattle.sg_exchange.specs.Heard.{ComesTo, Outcome};

use sg_http::replies_read_back;

/// What a link answered comes to one outcome, and each outcome ends a batch in one way, and an enrolment too.
pub fn one_end()
    ensures outcome { (wants : Wants) (answer : Option (List ℕ)) (a b : Outcome)
        → ComesTo wants answer a → ComesTo wants answer b → a ≡ b }
    ensures batch { (first next : ℕ) (outcome : Outcome) (a b : BatchEnd) → next < 2 ^ 32
        → BatchEnds first next outcome a → BatchEnds first next outcome b → a ≡ b }
    ensures enrolment { (outcome : Outcome) (a b : EnrolEnd)
        → EnrolEnds outcome a → EnrolEnds outcome b → a ≡ b }
{
    replies_read_back();
}
