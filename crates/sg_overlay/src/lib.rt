//! What a snapshot shows above its picture.
//!
//! An event of layer 1 is an overlay: its layout is shown above the picture that sg_resolver gives, and it makes no
//! plays. `Overlays` are made once from a snapshot and take all their memory then. Callers see them as that snapshot and
//! the segment of local seconds for which they keep the hour that they built last; `specs/Over.antt` defines what they
//! answer. The events in their order and the hour that is kept are `sg_layer`'s.
#![tactic(auto)]

pub use overlays::Overlays;

mod overlays;
