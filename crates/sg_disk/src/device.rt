// A disk as the store and the journal see it.
ghost use Rattle.std.specs.Prelude.{◌≡◌, ◌+◌, ◌≤◌, length, IfOk, OnOk, OnErr};
ghost use Rattle.sg_disk.specs.View.{View, range, Torn, Sized, Resized, Same, Written, Passed, Failed, Only};

/// A call of a disk has failed. The disk's count of faults has risen.
#[derive(Clone, Copy, Debug, Drop)]
pub struct DiskFailed;

/// A length of bytes that calls read and write at a place. Until a `sync` has passed, a crash may leave any bytes
/// where was written. A call that fails may have been done in whole, in part or not at all.
pub trait Disk {
    /// The disk as contracts see it.
    ghost view: { Self → View };

    /// The length in bytes.
    fn len(&mut self) -> Result<u64, DiskFailed>
        ensures ok { IfOk result (λ n. n ≡ (view self.new).size) }
        ensures passed { OnOk result (Passed Same Same (view self.old) (view self.new)) }
        ensures failed { OnErr result (Failed Same (view self.old) (view self.new)) }
        ensures size { OnErr result ((view self.new).size ≡ (view self.old).size) };

    /// Reads the bytes at a place.
    fn read(&mut self, place: u64, into: &mut [u8]) -> Result<(), DiskFailed>
        requires { place + length into.old ≤ (view self.old).size }
        ensures ok { OnOk result ((view self.old).told
            → into.new ≡ range (view self.old).bytes place (length into.old)) }
        ensures passed { OnOk result (Passed Same Same (view self.old) (view self.new)) }
        ensures failed { OnErr result (Failed Same (view self.old) (view self.new)) }
        ensures size { (view self.new).size ≡ (view self.old).size };

    /// Writes over the bytes at a place. Until a sync, a crash may leave any bytes there.
    fn write_at(&mut self, place: u64, bytes: &[u8]) -> Result<(), DiskFailed>
        requires { place + length bytes.now ≤ (view self.old).size }
        ensures passed { OnOk result (Passed (Written place bytes.now)
            (Torn place (length bytes.now)) (view self.old) (view self.new)) }
        ensures failed { OnErr result (Failed (Torn place (length bytes.now)) (view self.old)
            (view self.new)) }
        ensures size { (view self.new).size ≡ (view self.old).size };

    /// Gives the disk a length, with the front as it was. Until a sync, a crash may leave the old length.
    fn resize(&mut self, len: u64) -> Result<(), DiskFailed>
        ensures passed { OnOk result (Passed (Sized len) (Resized len) (view self.old)
            (view self.new)) }
        ensures failed { OnErr result (Failed (Resized len) (view self.old) (view self.new)) }
        ensures size { OnOk result ((view self.new).size ≡ len) };

    /// After it a crash leaves what a read gives.
    fn sync(&mut self) -> Result<(), DiskFailed>
        ensures durable { OnOk result ((view self.old).told
            → Only (view self.old).bytes (view self.new)) }
        ensures passed { OnOk result (Passed Same Same (view self.old) (view self.new)) }
        ensures failed { OnErr result (Failed Same (view self.old) (view self.new)) }
        ensures size { (view self.new).size ≡ (view self.old).size };
}
