//! Laws of the definitions. Each is the contract of a function that does nothing.

ghost use Rattle.std.specs.Prelude.{◌≡◌, ◌≢◌, ◌↔◌, ◌≤◌, ℕ, true, false, List, length};
ghost use Rattle.lrc_rules.specs.declared.command.Command.{Command};
ghost use Rattle.lrc_script.specs.Scripts.{IsScript};
ghost use Rattle.lrc_script.specs.Bundles.{Script, scripts_of};
ghost use Rattle.lrc_outputs.specs.declared.status.Status.{Status};
ghost use Rattle.lrc_outputs.specs.declared.status.Status.TheVariants.{Done};
ghost use Rattle.lrc_outputs.specs.Outputs.{IsOutput};
ghost use Rattle.lrc_outputs.specs.Checks.{command_count, IsCheck};
ghost use Rattle.lrc_outputs.specs.declared.sequel.Goal.{Goal};
ghost use Rattle.lrc_outputs.specs.declared.sequel.Goal.TheVariants.{Replies};
ghost use Rattle.lrc_outputs.specs.Sequels.{has_image, IsSequelOutput};

/// Each bundle has an output of a run.
pub fn some_output()
    ensures { (bundle : List ℕ) → (text : List ℕ) × (status : Status) × IsOutput bundle text status }
{}

/// A bundle with at most one script has one output of a run: one text, and one status.
pub fn one_output()
    ensures { (bundle text other : List ℕ) (status another : Status) → length (scripts_of bundle) ≤ 1
        → IsOutput bundle text status → IsOutput bundle other another → (text ≡ other) × (status ≡ another) }
{}

/// Each input has a line of a check.
pub fn some_check()
    ensures { (input : List ℕ) → (text : List ℕ) × (status : Status) × IsCheck input text status }
{}

/// Each input has one line of a check.
pub fn one_check()
    ensures { (input text other : List ℕ) (status another : Status)
        → IsCheck input text status → IsCheck input other another → (text ≡ other) × (status ≡ another) }
{}

/// A check of a bundle without an image refuses what a run refuses, and nothing else, in the same words.
pub fn checks_refuse_as_runs()
    ensures { (bundle text : List ℕ) (status : Status) → has_image bundle ≡ false
        → status ≢ Done → IsCheck bundle text status ↔ IsOutput bundle text status }
{}

/// A check of a sequel with an image refuses what going on from the image refuses, and nothing else, in the same words.
pub fn checks_refuse_as_sequels()
    ensures { (sequel text : List ℕ) (status : Status) → has_image sequel ≡ true
        → status ≢ Done → IsCheck sequel text status ↔ IsSequelOutput Replies sequel text status }
{}

/// A script has one command for each line that is not skipped.
pub fn counted_commands()
    ensures { (script : Script) (commands : List Command)
        → IsScript script.lines commands → length commands ≡ command_count script }
{}

/// Each sequel has an output for each goal.
pub fn some_sequel_output()
    ensures { (goal : Goal) (sequel : List ℕ)
        → (text : List ℕ) × (status : Status) × IsSequelOutput goal sequel text status }
{}

/// Each sequel has one output for each goal.
pub fn one_sequel_output()
    ensures { (goal : Goal) (sequel text other : List ℕ) (status another : Status)
        → IsSequelOutput goal sequel text status → IsSequelOutput goal sequel other another
        → (text ≡ other) × (status ≡ another) }
{}
