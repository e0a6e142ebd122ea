// Lines said, one or more.

ghost use Rattle.std.specs.Prelude.{map};
ghost use Rattle.std.specs.Bool.{OnTrue, OnFalse};
ghost use Rattle.turbomap.specs.Command.{spoken, SaysAll, SaysPart, Says};

use tm_store::Say;

/// Says the line, as far as the sayer takes it.
pub fn tell<W: Say>(say: &mut W, line: &str)
    ensures { Says (spoken W.said W.faults say.old say.new) line.now }
{
    let _ = say.line(line.as_bytes());
}

/// Says the lines in order, and answers whether all were said. After a line that was not said whole it says no more.
pub fn tell_all<W: Say>(say: &mut W, lines: &[Vec<u8>]) -> bool
    ensures all { OnTrue result (SaysAll (spoken W.said W.faults say.old say.new) (map (λ line. line.items) lines.now)) }
    ensures part { OnFalse result (SaysPart (spoken W.said W.faults say.old say.new) (map (λ line. line.items) lines.now)) }
{
    for line in lines {
        if say.line(line).is_err() {
            return false;
        }
    }
    true
}
