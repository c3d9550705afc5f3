//! Laws of the definitions. Each is the contract of a function that does nothing.

ghost use Rattle.std.specs.Prelude.{◌≡◌, ℕ, ◌+◌, ◌*◌, ◌≤◌, ◌↔◌, ◌⊎◌, ◌++◌, true, Some, None, List, All, length, sum_by, codes};
ghost use Rattle.std.specs.List.{AllZip};
ghost use Rattle.lrc_rules.specs.declared.command.Command.{Command};
ghost use Rattle.lrc_script.specs.declared.script.Cause.{Cause};
ghost use Rattle.lrc_script.specs.Bundles.{topology_of, scripts_of, HoldsLines, IsJoined, StandsIn, put_together, EndsEmpty};
ghost use Rattle.lrc_script.specs.Scripts.{lines_of, is_passed_over, command_line, IsInRange, IsScript};
ghost use Rattle.lrc_script.specs.Scripts.{HasForm, cause_of, first_bad, IsFirstBadAt};

/// A line is good exactly if it is passed over and has at most 1,024 bytes, or is the line of a command in range.
pub fn good_lines()
    ensures { (line : List ℕ) → (cause_of line ≡ None)
        ↔ (((is_passed_over line ≡ true) × (length line ≤ 1024))
        ⊎ ((command : Command) × IsInRange command × (line ≡ command_line command))) }
{}

/// The three tables of commands agree: the line of each command, as it is read and written, has the form of its word.
pub fn lines_have_forms()
    ensures { (command : Command) → HasForm command }
{}

/// A line is the first bad line of a script exactly if it is bad and no line before it is.
pub fn first_bad_line()
    ensures found { (number : ℕ) (lines : List (List ℕ)) (i : ℕ) (cause : Cause)
        → (first_bad number lines ≡ Some (record { line = number + i; cause = cause }))
        ↔ IsFirstBadAt lines i cause }
    ensures none { (number : ℕ) (lines : List (List ℕ))
        → (first_bad number lines ≡ None) ↔ All (λ line. cause_of line ≡ None) lines }
{}

/// The lines of a bundle are those of its topology and then, after a parting line each, those of its scripts. No other
/// line is a parting line. Lines are counted from 1, and the text of a script consists of its lines.
pub fn bundle_lines()
    ensures cut { (bundle : List ℕ) → (topology : List (List ℕ))
        × HoldsLines (topology_of bundle) topology
        × IsJoined (lines_of bundle) topology (scripts_of bundle) }
    ensures numbered { (bundle : List ℕ) → All (StandsIn (lines_of bundle)) (scripts_of bundle) }
    ensures texts { (bundle : List ℕ) → All (λ script. HoldsLines script.text script.lines) (scripts_of bundle) }
{}

/// The bytes of a bundle are those of its topology and then, after a parting line each, those of its scripts. A parting
/// line that ends the bundle may lack its LF.
pub fn bundle_bytes()
    ensures { (bundle : List ℕ)
        → (put_together (topology_of bundle) (scripts_of bundle) ≡ bundle)
        ⊎ ((put_together (topology_of bundle) (scripts_of bundle) ≡ bundle ++ codes "\n") × EndsEmpty (scripts_of bundle)) }
{}

/// A command's line has at least five bytes with its end. So five times the number of commands in all scripts of a bundle
/// is at most the number of its bytes, plus one for the end that its last line may lack.
pub fn few_commands()
    ensures { (bundle : List ℕ) (lists : List (List Command))
        → AllZip (λ script commands. IsScript script.lines commands) (scripts_of bundle) lists
        → 5 * sum_by (λ commands. length commands) lists ≤ length bundle + 1 }
{}
