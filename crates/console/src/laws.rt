//! Laws of lines and of hex digits, as the contract of a call that does nothing.
ghost use Rattle.console.specs.Laws.{CommandsRead, DigitsRead, LongIsNoRow, OneReading, OthersAreNoRow};

/// What is written reads back, in one way, and what is not read as bytes to hear is no row.
pub fn laws_stand()
    ensures digits { DigitsRead }
    ensures long { LongIsNoRow }
    ensures others { OthersAreNoRow }
    ensures commands { CommandsRead }
    ensures one { OneReading }
{}
