// What is made is read as what it is: laws of the definitions, over every text.
ghost use Rattle.std.specs.Prelude.{◌≡◌, ◌⊎◌, ℕ, ◌<◌, Bool, true, List, [], ◌∷◌, ◌++◌, length, Option, Some};
ghost use Rattle.sg_http.specs.declared.message.Verb.{Verb};
ghost use Rattle.sg_http.specs.declared.reply.Form.{Form};
ghost use Rattle.sg_http.specs.Messages.{Request, Whole, Opens};
ghost use Rattle.sg_http.specs.Replies.{Answer, Part, Reading, Reads};
ghost use Rattle.sg_http.specs.Streams.{Messages};
ghost use Rattle.sg_http.specs.Texts.{IsSendable, IsStatus, body_bytes, reply_head, reply_text, request_text};

/// The text of a reply whose body has less than 10,000,000,000 bytes is read back whole, whatever follows it, and a
/// front of it as cut: in its head with status 0, and in its body with its own status and length.
pub fn replies_read_back()
    ensures whole { (status : ℕ) (form : Form) (allow : Option Verb) (close : Bool)
        (body more : List ℕ) → IsStatus status → length body < 10000000000
        → Reads (reply_text status form allow body close ++ more) (Answer status body) }
    ensures head { (status : ℕ) (form : Form) (allow : Option Verb) (n : ℕ) (close : Bool)
        (part rest : List ℕ) → IsStatus status → n < 10000000000
        → part ++ rest ≡ reply_head status form allow n close → 0 < length rest
        → Reads part (Part 0 (length part) 0 []) }
    ensures body { (status : ℕ) (form : Form) (allow : Option Verb) (n : ℕ) (close : Bool)
        (got : List ℕ) → IsStatus status → n < 10000000000 → length got < n
        → Reads (reply_head status form allow n close ++ got)
        (Part status (length got) n got) }
    ensures front { (status : ℕ) (form : Form) (allow : Option Verb) (close : Bool)
        (body part rest : List ℕ) → IsStatus status → length body < 10000000000
        → part ++ rest ≡ reply_text status form allow body close → 0 < length rest
        → (s g n : ℕ) × (b : List ℕ) × Reads part (Part s g n b) }

    // The bytes of a reply say one thing.
    ensures one { (bytes : List ℕ) (a b : Reading) → Reads bytes a → Reads bytes b → a ≡ b }
{}

/// The text of a player's request is a message of its method, path, key and body that asks to close and has all the
/// bytes, whatever follows it.
pub fn requests_read_back()
    ensures { (verb : Verb) (path key : List ℕ) (body : Option (List ℕ)) (more : List ℕ)
        → IsSendable verb path key body
        → Opens (request_text verb path key body ++ more)
        (Whole (record {
          method = verb;
          target = path;
          key = Some key;
          body = body_bytes body;
          close = true;
        })
        (length (request_text verb path key body))) }
{}

/// A connection whose bytes begin with a message that asks to close has no other message, however many of its bytes
/// were taken.
pub fn one_message()
    ensures { (stream taken left : List ℕ) (m : Request) (used : ℕ) (ms : List Request)
        (rest : List ℕ) → Opens stream (Whole m used) → m.close ≡ true
        → stream ≡ taken ++ left → Messages taken ms rest → (ms ≡ []) ⊎ (ms ≡ m ∷ []) }
{}
