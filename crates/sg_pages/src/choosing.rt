// The pages of a new file.
ghost use Rattle.std.specs.Prelude.{◌≡◌, ◌+◌, ◌/◌, ◌<◌, ◌≤◌, ◌++◌, length, take, OnOk, OnErr, IfErr, vec_len, vec_capacity};
ghost use Rattle.sg_disk.specs.Contents.{IsRoom};
ghost use Rattle.sg_pages.specs.Pages.{free_pages};
ghost use Rattle.sg_pages.specs.Shelves.{all_taken_at, stands, IsShelfIn};

use crate::page_set::PageSet;
use crate::shelf::Shelf;
use sg_disk::PAGE;
use thiserror::Error;

/// Fewer pages are free than a file needs.
#[derive(Clone, Copy, Debug, PartialEq, Eq, Error)]
#[error("{need} pages are needed, and {free} are free")]
pub struct NoSpace {
    /// How many the file needs.
    pub need: u32,
    /// How many are free.
    pub free: u32,
}

/// Puts the lowest free pages of a data area of `room` bytes behind others: as many as are needed. Free are those of which no
/// file of either shelf takes a byte. The set is for its own use. It goes over the files and their pages once, and twice over
/// the pages of the data area.
pub fn choose_pages(
    room: u64,
    current: &Shelf,
    staged: &Shelf,
    need: u32,
    set: &mut PageSet,
    pages: &mut Vec<u16>,
) -> Result<(), NoSpace>
    requires room { IsRoom room }
    requires current { IsShelfIn room current.now }
    requires staged { IsShelfIn room staged.now }
    requires space { vec_len pages.old + need ≤ vec_capacity pages.old }

    // After `Ok` these are the lowest free pages.
    ensures chosen { OnOk result (pages.new.items ≡ pages.old.items ++ take need (free_pages
        (all_taken_at (stands current.now ++ stands staged.now)) (room / PAGE))) }
    ensures enough { OnOk result (need ≤ length (free_pages
        (all_taken_at (stands current.now ++ stands staged.now)) (room / PAGE))) }

    // It is refused exactly where fewer are free, and then nothing changes.
    ensures none { IfErr result (λ fault. (fault.need ≡ need) × (fault.free ≡ length (free_pages
        (all_taken_at (stands current.now ++ stands staged.now)) (room / PAGE)))
        × (fault.free < need)) }
    ensures unchanged { OnErr result (pages.new ≡ pages.old) }
{
    set.clear(room);
    set.add_shelf(current);
    set.add_shelf(staged);
    let free = set.free();
    if free < need {
        return Err(NoSpace { need, free });
    }
    set.put_lowest(need, pages);
    Ok(())
}
