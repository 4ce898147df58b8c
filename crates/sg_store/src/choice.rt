// Where listed files stand, among those that are whole.
ghost use Rattle.std.specs.Prelude.{◌≡◌, ◌≤◌, ◌++◌, length, All, map, is_some, true};
ghost use Rattle.sg_store.specs.Ready.{placed_as, chosen};

use sg_base::Listed;
use sg_base::limits::MANIFEST_FILES;
use sg_placing::{Placed, Shelf, find_file};

/// The file of the snapshot, or the staged one, that is the listed file. It goes over both lists once.
pub fn find_whole(current: &[Placed], staged: &[Placed], file: &Listed) -> Option<Placed>
    ensures { result ≡ placed_as (current.now ++ staged.now) file.now }
{
    match find_file(current, file) {
        Some(found) => Some(found),
        None => find_file(staged, file),
    }
}

/// Puts the files of a snapshot, each of which is whole, on a shelf. For each it goes over both lists once, at most 512 times
/// 1,024 comparisons.
pub fn choose_files(current: &[Placed], staged: &[Placed], files: &[Listed], next: &mut Shelf)
    requires few { length files.now ≤ MANIFEST_FILES }
    requires held { All (λ f. is_some (placed_as (current.now ++ staged.now) f) ≡ true) files.now }
    ensures { next.new ≡ map (chosen (current.now ++ staged.now)) files.now }
{
    next.clear();
    for file in files {
        match find_whole(current, staged, file) {
            Some(found) => next.push(found),
            None => unreachable!(),
        }
    }
}
