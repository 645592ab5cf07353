//! That what holds of rows holds of bytes: one function for each theorem, whose contract is that theorem.

#![tactic(auto)]

ghost use Rattle.link.specs.Theorems.{NothingWithoutKey, RefusedBytesAreQuiet, Refines, InstalledOnceBytes, StreamsOnce, WayOnBytes};
ghost use Rattle.refinement.specs.Kept.{EachEventRefines, KeptBytes};

/// Without the key of its tag hearing any bytes changes nothing.
pub fn nothing_without_key_stands()
    ensures { NothingWithoutKey }
{}

/// Refused bytes change nothing, say nothing and deliver nothing.
pub fn refused_bytes_are_quiet_stands()
    ensures { RefusedBytesAreQuiet }
{}

/// Every run on bytes in which no tag was forged is a run on rows, and what was said in bytes is its transcript.
pub fn refines_stands()
    ensures { Refines }
{}

/// Whatever happens on bytes is for the rules one event or none.
pub fn each_event_refines_stands()
    ensures { EachEventRefines }
{}

/// Every run on bytes in which no tag was forged keeps what is promised of one world.
pub fn kept_bytes_stands()
    ensures { KeptBytes }
{}

/// No pair comes into use twice at one end, on bytes either.
pub fn installed_once_bytes_stands()
    ensures { InstalledOnceBytes }
{}

/// While keys of different names differ, no keystream covers two texts: only a take is said again under one, with the
/// same text.
pub fn streams_once_stands()
    ensures { StreamsOnce }
{}

/// From any state, while both have draws and entropy left, the next handshake in bytes joins them with one key, and
/// frames go through.
pub fn way_on_bytes_stands()
    ensures { WayOnBytes }
{}
