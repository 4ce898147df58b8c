// A disk of which nothing is known beforehand, so that a file may be opened without a reading of every page.
ghost use Rattle.std.specs.Prelude.{◌≡◌, ◌+◌, false, true, refl};

use sqlite_disk::{Disk, Tally, digest_of};
use std::io;
use std::io::ErrorKind;

/// Another disk, but none of whose bytes are taken as known: no clause on what is stored rests on it. What stays is that
/// each call is safe and returns, and that failures are counted.
#[derive(Drop)]
pub struct Plain<D: Disk> {
    inner: D,
    // Reads whose bytes failed the test against a digest.
    caught: u64,
    // Reads that failed.
    failed: u64,
}

impl<D: Disk> Plain<D> {
    pub fn new(inner: D) -> Plain<D>
        ensures { ⟦<Plain<D> as Disk>⟧.is_usable result ≡ D.is_usable inner }
    {
        Plain {
            inner,
            caught: 0,
            failed: 0,
        }
    }
}

impl<D: Disk> Disk for Plain<D> {
    ghost seen = { λ f. D.Disk.seen f.inner };

    ghost may_leave = { λ f. D.Disk.may_leave f.inner };

    ghost is_usable = { λ f. D.Disk.is_usable f.inner };

    ghost faults = { λ f. D.Disk.faults f.inner + f.failed };

    ghost tally_of = { λ f. record { caught = f.caught; refused = (D.Disk.tally_of f.inner).refused } };

    ghost is_clean = { λ _. false };

    ghost key_of = { λ f. D.Disk.key_of f.inner };

    ghost is_fair = { λ _ _. true };

    ghost is_mixing = { λ f. D.Disk.is_mixing f.inner };

    ghost seen_may_stay = { λ f. D.Disk.seen_may_stay f.inner };

    ghost fair_if_clean = { λ _ _ _. refl };

    fn mixes(&self) -> bool {
        self.inner.mixes()
    }

    fn key(&self) -> u64 {
        self.inner.key()
    }

    fn tally(&self) -> Tally {
        Tally {
            caught: self.caught,
            refused: self.inner.tally().refused,
        }
    }

    fn may_be_used(&self) -> bool {
        self.inner.may_be_used()
    }

    fn len(&mut self) -> io::Result<usize> {
        self.inner.len()
    }

    fn read_at(&mut self, at: usize, buf: &mut [u8]) -> io::Result<()> {
        match self.inner.read_at(at, buf) {
            Ok(()) => Ok(()),
            Err(error) => {
                self.failed = self.failed.saturating_add(1);
                Err(error)
            }
        }
    }

    // The test of the inner disk asks for a digest that is known to be right. Here it may be any.
    fn read_checked(&mut self, key: u64, want: u64, at: usize, buf: &mut [u8]) -> io::Result<()> {
        self.inner.read_at(at, buf)?;
        if digest_of(key, buf) != want {
            self.caught = self.caught.saturating_add(1);
            return Err(ErrorKind::InvalidData.into());
        }
        Ok(())
    }

    fn write_at(&mut self, at: usize, bytes: &[u8]) -> io::Result<()> {
        self.inner.write_at(at, bytes)
    }

    fn set_len(&mut self, len: usize) -> io::Result<()> {
        self.inner.set_len(len)
    }

    fn sync(&mut self) -> io::Result<()> {
        self.inner.sync()
    }
}
