//! That what is promised holds, of every world that can be reached: one function for each promise, whose contract is
//! that promise, and one for them all.

#![tactic(auto)]

ghost use Rattle.protocol.specs.Promise.{Always, DrawnOnce, InstalledOnce, NeverTwice, OwnWords, Delivered, BroadcastOnce, OneKey, WayOn, WayOpen, Main};
ghost use Rattle.protocol.specs.World.{World};
ghost use Rattle.promise.specs.Reach.{Reached, Kept};

/// No nonce is drawn twice, and each names the end that drew it.
pub fn drawn_once_stands()
    ensures { Always DrawnOnce }
{}

/// No pair comes into use twice at one end.
pub fn installed_once_stands()
    ensures { InstalledOnce }
{}

/// No counter is used twice under one key.
pub fn never_twice_stands()
    ensures { Always NeverTwice }
{}

/// Every message was sent by the end that it names.
pub fn own_words_stand()
    ensures { Always OwnWords }
{}

/// What is delivered was sent by the other end, to whom it is delivered, and under each key the counters rise.
pub fn delivered_stands()
    ensures { Always Delivered }
{}

/// A handheld delivers a frame to all at most once, whatever it forgot in between.
pub fn broadcast_once_stands()
    ensures { Always BroadcastOnce }
{}

/// Who has a key in use has it with the other, and a gate's is not newer than the handheld's.
pub fn one_key_stands()
    ensures { Always OneKey }
{}

/// From any state, while both can draw, the next handshake joins them.
pub fn way_on_stands()
    ensures { Always WayOn }
{}

/// An open handshake's begin, heard once more, joins them.
pub fn way_open_stands()
    ensures { Always WayOpen }
{}

/// All of them together.
pub fn whole_stands()
    ensures { Main }
{}

/// Every world that can be reached keeps what is promised of one world.
pub fn kept_stands()
    ensures { (w : World) → Reached w → Kept w }
{}
