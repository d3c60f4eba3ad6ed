//! What a reader of the definitions of scripts relies on. Each function has a law as its contract, and does nothing.
ghost use Rattle.grb_market.specs.Line.{Line};
ghost use Rattle.grb_script.specs.Faults.{AppliesToLine, IsLowestFault};
ghost use Rattle.grb_script.specs.Laws.{WithoutThreadsAreLines};
ghost use Rattle.grb_script.specs.Scope.{Scope};
ghost use Rattle.grb_script.specs.ScriptFault.{line_fault};

/// A text without a fault and without thread sections asks in main and `finally`, one after the other, for what it asks for line by line
/// where the line `finally` asks for nothing.
pub fn a_script_without_threads_is_read_line_by_line()
    ensures { WithoutThreadsAreLines }
{}

/// Of several faults of a line that of the lowest number is answered, wherever the line stands; and where none applies, the line has no
/// fault. Each has a rule of its own, which asks for no other.
pub fn the_first_fault_of_a_line_is_answered()
    ensures { (here : Scope) (line : Line) → IsLowestFault (AppliesToLine here line) (line_fault here line) }
{}
