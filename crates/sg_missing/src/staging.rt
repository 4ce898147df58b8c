// What a sync sees of a store.
ghost use Rattle.std.specs.Prelude.{◌≡◌, ℕ, Bool};
ghost use Rattle.std.specs.declared.option.Option.{Option};
ghost use Rattle.sg_base.specs.declared.file.Listed.{Listed};

use sg_base::Listed;

/// The files of a store: those that are whole, and one at most of which a part is staged.
pub trait Staging {
    // Whether a file is whole.
    ghost holds: { Self → Listed → Bool };

    // The file of which a part is staged, and how many bytes of it.
    ghost part: { Self → Option (Listed × ℕ) };

    /// Whether a file is whole.
    fn held(&self, file: &Listed) -> bool
        ensures { result ≡ holds self.now file.now };

    /// The file of which a part is staged, and how many bytes of it.
    fn staged(&self) -> Option<(Listed, u32)>
        ensures { result ≡ part self.now };
}
