//! Where an id stands among ids that ascend.

ghost use Rattle.std.specs.List.Sorted.{IsNonDecreasing};
ghost use Rattle.sg_base.specs.Index.{IsIndexOf};

/// The index of an id among ids that ascend, by halving; `None` if it isn't among them. If an id stands there more than
/// once, it is the index of one of them.
pub fn index_of(ids: &[u32], id: u32) -> Option<usize>
    requires { IsNonDecreasing ids.now }
    ensures { IsIndexOf ids.now id result }
{
    ids.binary_search(&id).ok()
}
