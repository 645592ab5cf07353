// Laws of reading a script, as the contract of a call that does nothing.
ghost use Rattle.script.specs.Laws.{CommandsRead, NumbersRead, OneReading};

/// What is written reads back, in one way.
pub fn laws_stand()
    ensures numbers { NumbersRead }
    ensures commands { CommandsRead }
    ensures one { OneReading }
{}
