//! Keys by hand-written order, a table after a list of changes, and ids among ids.

ghost use Rattle.sg_base.specs.Keys.{number_of};

use sg_base::{Key, Rank, Ranked, Sorted, index_of};
use std::alloc::{AllocError, Global};
use std::test::Fail;

/// A letter with its key.
#[derive(Clone, Copy, Debug, PartialEq, Eq)]
struct Letter {
    key: Key,
    letter: char,
}

impl Ranked for Letter {
    ghost rank = { λ l. number_of l.key };

    fn rank(&self) -> Rank {
        self.key.rank()
    }
}

fn key(kind: u8, a: u64, b: u64) -> Key {
    Key { kind, a, b }
}

fn make(a: u64, letter: char) -> Letter {
    Letter {
        key: key(2, a, 0),
        letter,
    }
}

// A table of some letters, put one after another.
fn table_of(alloc: Global, letters: &[Letter]) -> Result<Sorted<Letter>, AllocError> {
    let mut table = Sorted::new(alloc);
    for letter in letters {
        table.reserve(1)?;
        table.put(*letter);
    }
    Ok(table)
}

#[test]
fn keys_stand_by_kind_and_then_by_their_numbers(rt: HostRuntime) -> Result<(), Fail> {
    let rising = [
        key(0, 0, 0),
        key(0, 0, u64::MAX),
        key(0, 1, 0),
        key(0, u64::MAX, u64::MAX),
        key(1, 0, 0),
        key(255, u64::MAX, u64::MAX - 1),
        key(255, u64::MAX, u64::MAX),
    ];
    for (i, lower) in rising.iter().enumerate() {
        for (j, higher) in rising.iter().enumerate() {
            assert_eq!(rt;
                lower.rank().is_below(higher.rank()),
                i < j,
                "{lower:?} {higher:?}"
            );
            assert_eq!(rt; lower < higher, i < j, "{lower:?} {higher:?}");
        }
    }
    Ok(())
}

#[test]
fn the_last_element_of_a_rank_stays(rt: HostRuntime) -> Result<(), Fail> {
    let came = [
        make(5, 'e'),
        make(1, 'a'),
        make(9, 'i'),
        make(5, 'E'),
        make(3, 'c'),
    ];
    let table = table_of(rt.alloc(), &came)?;
    let stays = [make(1, 'a'), make(3, 'c'), make(5, 'E'), make(9, 'i')];
    assert_eq!(rt; table.as_slice(), stays.as_slice());
    Ok(())
}

#[test]
fn elements_are_found_by_rank(rt: HostRuntime) -> Result<(), Fail> {
    let table = table_of(rt.alloc(), &[make(1, 'a'), make(5, 'e'), make(9, 'i')])?;
    let rows = [
        (0, None),
        (1, Some('a')),
        (2, None),
        (5, Some('e')),
        (9, Some('i')),
        (10, None),
    ];
    for (a, found) in rows {
        assert_eq!(rt;
            table.find(key(2, a, 0).rank()).map(|l| l.letter),
            found,
            "{a}"
        );
    }
    Ok(())
}

#[test]
fn the_elements_between_two_ranks_are_found(rt: HostRuntime) -> Result<(), Fail> {
    let table = table_of(rt.alloc(), &[make(1, 'a'), make(5, 'e'), make(9, 'i')])?;
    let end = Key::rank_after_kind(2);
    // those from a key on, and those after it
    let rows = [
        (0, 3, 3),
        (1, 3, 2),
        (2, 2, 2),
        (5, 2, 1),
        (9, 1, 0),
        (10, 0, 0),
        (u64::MAX, 0, 0),
    ];
    for (a, from, after) in rows {
        let key = Key { kind: 2, a, b: 0 };
        assert_eq!(rt; table.between(key.rank(), end).len(), from, "{a}");
        assert_eq!(rt; table.between(key.rank_after(), end).len(), after, "{a}");
    }
    let last = Key {
        kind: 1,
        a: u64::MAX,
        b: u64::MAX,
    };
    assert_eq!(rt;
        table
            .between(last.rank_after(), end)
            .first()
            .map(|l| l.letter),
        Some('a')
    );
    Ok(())
}

#[test]
fn elements_are_taken_out_by_rank(rt: HostRuntime) -> Result<(), Fail> {
    let mut table = table_of(rt.alloc(), &[make(1, 'a'), make(5, 'e'), make(9, 'i')])?;
    table.remove(key(2, 4, 0).rank());
    assert_eq!(rt; table.as_slice().len(), 3);
    table.remove(key(2, 5, 0).rank());
    assert_eq!(rt; table.as_slice(), [make(1, 'a'), make(9, 'i')].as_slice());
    Ok(())
}

#[test]
fn an_element_is_replaced_without_room(rt: HostRuntime) -> Result<(), Fail> {
    let mut table = table_of(rt.alloc(), &[make(1, 'a'), make(5, 'e')])?;
    let other = make(5, 'E');
    if table.find(other.rank()).is_some() {
        table.replace(other);
    }
    assert_eq!(rt; table.as_slice(), [make(1, 'a'), make(5, 'E')].as_slice());
    Ok(())
}

#[test]
fn ids_are_found_among_ids(rt: HostRuntime) -> Result<(), Fail> {
    let ids = [3, 7, 9, 4_294_967_295];
    let rows = [
        (3, Some(0)),
        (7, Some(1)),
        (4_294_967_295, Some(3)),
        (0, None),
        (8, None),
        (4_294_967_294, None),
    ];
    for (id, index) in rows {
        assert_eq!(rt; index_of(&ids, id), index, "{id}");
    }
    assert_eq!(rt; index_of(&[], 3), None);
    Ok(())
}
