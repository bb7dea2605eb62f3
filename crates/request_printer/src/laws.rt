//! The laws of the lines of requests.

ghost use Rattle.std.specs.Prelude.{◌≡◌, ◌≤◌, List, ℕ, None, IsTrue, length};
ghost use Rattle.command_grammar.specs.declared.command.Request.{Request};
ghost use Rattle.command_grammar.specs.Kinds.{keeps_kinds};
ghost use Rattle.command_grammar.specs.Reads.{Reads};
ghost use Rattle.request_printer.specs.Faults.{fault_of};
ghost use Rattle.request_printer.specs.Writing.{Writes};

/// The line of a request reads as that request, where its arguments keep their kinds and nothing else
/// keeps it from being printed.
pub fn each_request_reads_back()
    ensures { (request : Request) (line : List ℕ) → Writes request line
        → IsTrue (keeps_kinds request.command) → fault_of request ≡ None → Reads line request }
{}

/// A request that a line reads as can be printed, if its line is short enough and it is a command or blank.
pub fn what_reads_is_printed()
    ensures { (line : List ℕ) (request : Request) → Reads line request
        → fault_of request ≡ None }
{}

/// No line that reads as a request is shorter than the one that is printed.
pub fn no_line_is_shorter()
    ensures { (request : Request) (line other : List ℕ) → Writes request line
        → Reads other request → length line ≤ length other }
{}
