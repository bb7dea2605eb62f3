//! Laws of the printed lines, and of what they read as.

ghost use Rattle.std.specs.Prelude.{◌≡◌, ◌↔◌, ℕ, List, Option, Some, IsTrue};
ghost use Rattle.line_words.specs.Bytes.{is_text};
ghost use Rattle.reply_kinds.specs.declared.Reply.{Reply};
ghost use Rattle.reply_kinds.specs.Replies.{Fits, IsId, Line, ReadsAs, line_text};
ghost use Rattle.reply_grammar.specs.Lines.{read_line};

/// A line has no CR, and no LF before its end.
pub fn no_break_inside()
    ensures { (id : Option ℕ) (reply : Reply) → IsId id → Fits reply → IsTrue (is_text (line_text id reply)) }
{}

/// Two different pairs of a message id and a reply never print alike.
pub fn no_two_alike()
    ensures { (id other_id : Option ℕ) (reply other : Reply) → IsId id → Fits reply → IsId other_id → Fits other
        → line_text id reply ≡ line_text other_id other → (id ≡ other_id) × (reply ≡ other) }
{}

/// The line of a reply, without its LF, reads as that id and that reply, and as no other pair.
pub fn each_reads_alone()
    ensures { (id : Option ℕ) (reply : Reply) → IsId id → Fits reply
        → (other : Line) → ReadsAs (line_text id reply) other ↔ (other ≡ (id, reply)) }
{}

/// Any line, without its LF, is read as a pair of an id and a reply exactly where that pair keeps its
/// kinds and prints as the line. So who folds what is read of lines folds the replies that print so.
pub fn reads_what_prints()
    ensures { (line : List ℕ) (pair : Line) → (read_line line ≡ Some pair) ↔ ReadsAs line pair }
{}
