//! Laws of script lines and reply lines. The contract of each function is the law.

ghost use Rattle.std.specs.Prelude.{◌≡◌, ℕ, ◌<◌, ◌≤◌, List, length, Some, None};
ghost use Rattle.phase_script.specs.Commands.{WholeCommand, IsCommand, spelling, command_of};
ghost use Rattle.phase_script.specs.ReplyLines.{WholeReply, reply_text, IsReply, IsOneLine};
ghost use Rattle.phase_script.specs.declared.script_line.TheConstants.{LINE_MAX};
ghost use Rattle.phase_script.specs.declared.reply_line.TheConstants.{REPLY_MAX};
ghost use Rattle.phase_script.specs.declared.values.TheConstants.{VALUES_MAX};
ghost use Rattle.phase_script.specs.Cuts.{LinesAreCutAtLf, EveryScriptIsCut};

/// A line that is read is its command's spelling, and the command's numbers are within limits.
pub fn grammar_found()
    ensures { (line : List ℕ) (c : WholeCommand) → command_of line ≡ Some c
        → IsCommand c × (line ≡ spelling c) }
{}

/// The spelling of a command whose numbers are within limits is read as that command.
pub fn grammar_only()
    ensures { (c : WholeCommand) → IsCommand c → command_of (spelling c) ≡ Some c }
{}

/// No line of the grammar has more than `LINE_MAX` bytes, 361.
pub fn lines_are_short()
    ensures short { (line : List ℕ) → LINE_MAX < length line → command_of line ≡ None }
    ensures number { LINE_MAX ≡ 361 }
{}

/// A `block` has at most `VALUES_MAX` values, and a `take` asks for at most as many phases, 16.
pub fn blocks_are_short()
    ensures number { VALUES_MAX ≡ 16 }
{}

/// A reply line whose numbers are within those of a script has one line end, its last byte.
pub fn replies_are_single_lines()
    ensures { (reply : WholeReply) → IsReply reply → IsOneLine (reply_text reply) }
{}

/// No reply line whose numbers are within those of a script has more than
/// `REPLY_MAX` bytes, 363.
pub fn replies_are_short()
    ensures short { (reply : WholeReply) → IsReply reply → length (reply_text reply) ≤ REPLY_MAX }
    ensures number { REPLY_MAX ≡ 363 }
{}

/// Where pieces with no LF are joined by an LF behind each, and bytes with no LF follow, the lines
/// are the pieces less one CR each, and a last line where bytes follow. Each script is such a join.
pub fn lines_are_cut_at_lf()
    ensures lines { LinesAreCutAtLf }
    ensures every { EveryScriptIsCut }
{}
