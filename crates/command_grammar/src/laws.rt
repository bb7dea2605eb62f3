//! The laws of the grammar.

ghost use Rattle.std.specs.Prelude.{◌≡◌, ◌≤◌, ℕ, List, IfSome, IsTrue, length};
ghost use Rattle.command_grammar.specs.declared.command.Request.{Request};
ghost use Rattle.command_grammar.specs.Kinds.{keeps_kinds};
ghost use Rattle.command_grammar.specs.Sizes.{argument_bytes};
ghost use Rattle.command_grammar.specs.Reading.{request_of};
ghost use Rattle.command_grammar.specs.Reads.{Reads};

/// Each line, whatever its bytes, reads as one request and as no other.
pub fn reads_as_one_request()
    ensures one { (line : List ℕ) → Reads line (request_of line) }
    ensures only { (line : List ℕ) (request : Request) → Reads line request
        → request ≡ request_of line }
{}

/// A request that a line reads as has an id of at most 2147483647, if it has one, and each of its
/// arguments is of its kind.
pub fn keeps_kinds()
    ensures id { (line : List ℕ) (request : Request) → Reads line request
        → IfSome request.id (λ id. id ≤ 2147483647) }
    ensures arguments { (line : List ℕ) (request : Request) → Reads line request
        → IsTrue (keeps_kinds request.command) }
{}

/// The arguments of a request take no more bytes than its line has, each counted with the byte that
/// parts it from what stands before it.
pub fn fits_into_its_line()
    ensures { (line : List ℕ) (request : Request) → Reads line request
        → argument_bytes request.command ≤ length line }
{}
