//! The ends of a command that have a text of their own.

ghost use Rattle.std.specs.Prelude.{◌≡◌, ◌≢◌};
ghost use Rattle.sg_endings.specs.Ends.{Finishes};
ghost use Rattle.signage.specs.Stop.{status_of, text_of};
ghost use Rattle.signage.specs.Texts.{no_manifest};

use sg_endings::put_last;
use sg_manifest::ManifestFault;
use sg_outside::Sink;

/// Why a command ends without having done its work.
#[derive(Clone, Copy, Debug, PartialEq, Eq)]
pub(crate) enum Stop {
    /// The words aren't in the command table.
    Usage,
    /// The input has more bytes than a manifest may have.
    TooLong,
    /// The input is no manifest: its first fault.
    NoManifest(ManifestFault),
    /// The source failed.
    Read,
    /// Memory ran out.
    Memory,
}

impl Stop {
    /// The status that the command answers.
    fn status(self) -> u8
        ensures value { result ≡ status_of self }
        ensures other { result ≢ 5 }
    {
        match self {
            Stop::Usage => 2,
            Stop::TooLong | Stop::NoManifest(_) => 3,
            Stop::Read => 4,
            Stop::Memory => 9,
        }
    }

    /// The line that the command writes.
    #[tactic(auto, unfolding(crate::specs::Texts::usage, sg_endings::specs::Texts::too_long, sg_endings::specs::Texts::read_fault, sg_endings::specs::Texts::memory_fault))]
    fn text(self) -> &'static str
        ensures { result.now ≡ text_of self }
    {
        match self {
            Stop::Usage => "usage: signage preview|format|play|serve|edit|report|rehearse\n",
            Stop::TooLong => "input: too long\n",
            Stop::NoManifest(fault) => no_manifest(fault),
            Stop::Read => "fault: read\n",
            Stop::Memory => "fault: memory\n",
        }
    }
}

/// The line for a fault of a manifest. Want of memory has a line of its own, and isn't shown by this one.
#[tactic(auto, unfolding(crate::specs::Texts::no_manifest))]
fn no_manifest(fault: ManifestFault) -> &'static str
    ensures { result.now ≡ no_manifest fault }
{
    match fault {
        ManifestFault::NotJson => "input: manifest NotJson\n",
        ManifestFault::BadField { .. } => "input: manifest BadField\n",
        ManifestFault::Limit { .. } => "input: manifest Limit\n",
        ManifestFault::Dangling { .. } => "input: manifest Dangling\n",
        ManifestFault::Double { .. } => "input: manifest Double\n",
        ManifestFault::Version(_) => "input: manifest Version\n",
        ManifestFault::NotCanonical(_) => "input: manifest NotCanonical\n",
        ManifestFault::Memory => "input: manifest Memory\n",
    }
}

/// Writes a stop's line and answers its status, or 5 where the sink fails.
pub(crate) fn finish<O: Sink>(out: &mut O, stop: Stop) -> u8
    ensures { Finishes (status_of stop) (text_of stop) result (O.written out.old)
        (O.written out.new) (O.put_faults out.old) (O.put_faults out.new) }
{
    put_last(out, stop.status(), stop.text().as_bytes())
}
