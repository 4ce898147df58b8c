//! A batch that is written is read back.

ghost use Rattle.std.specs.Prelude.{◌≡◌, Some, Ok};
ghost use Rattle.serde_json.specs.Written.{compact_text};
ghost use Rattle.sg_bodies.specs.Bodies.{IsPlays, PlaysParts, json_at, plays_body_in, plays_json};

/// The compact text of a batch's JSON is read as that JSON, and this as the batch. It does nothing when it runs; its clauses
/// are the law.
pub fn batches_read_back()
    ensures json { (p : PlaysParts) → IsPlays p
        → json_at (compact_text (plays_json p)) ≡ Some (plays_json p) }
    ensures batch { (p : PlaysParts) → IsPlays p → plays_body_in (plays_json p) ≡ Ok p }
{}
