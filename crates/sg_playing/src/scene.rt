// What is to be seen on every panel.
ghost use Rattle.std.specs.Prelude.{◌≡◌, ◌==◌, ◌+◌, ◌≤◌, ◌++◌, ◌∷◌, ◌↔◌, [], IsTrue, length};
ghost use Rattle.sg_playing.specs.Scenes.{scene};

use sg_base::MediaId;
use std::marker::Model;

/// The most entries of a scene: those of two pictures.
pub const SCENE_ROOM: usize = 32;

/// What is to be seen: the switch number of the snapshot, and each region with its medium, in fixed room.
#[derive(Clone, Debug, Drop)]
pub struct Scene {
    number: u32,
    entries: [(u32, MediaId); SCENE_ROOM],
    count: usize,
}

impl Model for Scene {
    ghost use Rattle.std.specs.Prelude.{◌≡◌, ◌≤◌, length, take};
    ghost use Rattle.sg_playing.specs.declared.scene.TheConstants.{SCENE_ROOM};
    ghost use Rattle.sg_playing.specs.Scenes.{SceneView};

    ghost Value = { SceneView };

    ghost view = { λ s. record { number = s.number; entries = take s.count s.entries } };

    ghost invariant = { λ s. (s.count ≤ SCENE_ROOM) × (length s.entries ≡ SCENE_ROOM) };
}

impl Scene {
    /// Nothing is to be seen, by the snapshot of this switch number.
    pub fn new(number: u32) -> Scene
        ensures { result ≡ scene number [] }
    {
        Scene {
            number,
            entries: [(0, MediaId(0)); SCENE_ROOM],
            count: 0,
        }
    }

    /// Adds a region and its medium after the others.
    pub fn push(&mut self, region: u32, media: MediaId)
        requires { length self.old.entries + 1 ≤ SCENE_ROOM }
        ensures { self.new ≡ scene self.old.number (self.old.entries ++ (region, media) ∷ []) }
    {
        self.entries[self.count] = (region, media);
        self.count += 1;
    }

    /// How many entries there are.
    pub fn len(&self) -> usize
        ensures { result ≡ length self.now.entries }
    {
        self.count
    }

    /// Whether there is no entry.
    pub fn is_empty(&self) -> bool
        ensures { result ≡ (length self.now.entries == 0) }
    {
        self.count == 0
    }

    /// The switch number of the snapshot.
    pub fn number(&self) -> u32
        ensures { result ≡ self.now.number }
    {
        self.number
    }

    /// Each region with its medium, those of an overlay last.
    pub fn entries(&self) -> &[(u32, MediaId)]
        ensures { result.now ≡ self.now.entries }
    {
        &self.entries[..self.count]
    }

    /// Whether the same is to be seen as by the other one, of the same snapshot.
    pub fn is_same(&self, other: &Scene) -> bool
        ensures { IsTrue result ↔ (self.now ≡ other.now) }
    {
        self.number == other.number && self.entries() == other.entries()
    }
}
