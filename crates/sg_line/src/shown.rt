//! What is shown at once.

use sg_resolver::{Picture, Show};

/// What is shown by one layer: the slot's show, and its picture.
#[derive(Debug, Drop)]
pub struct Shown {
    pub show: Show,
    pub picture: Picture,
}
