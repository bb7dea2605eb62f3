//! Laws of records. Each function takes nothing and does nothing: its contract is the law.

ghost use Rattle.std.specs.Prelude.{◌≡◌, ℕ, [], List, Option, Result, Ok, IsTrue, ◌++◌};
ghost use Rattle.std.specs.List.{AllByRecursion};
ghost use Rattle.account_book.specs.Account.{Account, is_sound, IsHeld};
ghost use Rattle.account_book.specs.Book.{HasDistinctNames, login};
ghost use Rattle.account_book.specs.File.{file_accounts};
ghost use Rattle.command_grammar.specs.declared.command.Command.TheVariants as command;
ghost use Rattle.command_grammar.specs.declared.command.ReadFault.{ReadFault};
ghost use Rattle.command_grammar.specs.declared.command.Request.{Request};
ghost use Rattle.command_grammar.specs.Reads.{Reads};
ghost use Rattle.reply_kinds.specs.Replies.{id_text};
ghost use Rattle.request_printer.specs.Faults.{is_id};
ghost use Rattle.line_words.specs.Bytes.{is_name};
ghost use Rattle.lobby_model.specs.declared.event.Event.{Event};
ghost use Rattle.lobby_model.specs.Configuration.{Configuration};
ghost use Rattle.lobby_model.specs.State.{empty_lobby};
ghost use Rattle.lobby_model.specs.History.{put_in, taken_in};
ghost use Rattle.lobby_setup.specs.Answers.{IsAnswer};
ghost use Rattle.lobby_setup.specs.declared.error.SetupFault.{SetupFault};
ghost use Rattle.lobby_setup.specs.declared.setup.Setup.{Setup};
ghost use Rattle.record_lines.specs.Head.{IsAccountsText, ReadsSettings, SetsUp};
ghost use Rattle.record_lines.specs.Masks.{hidden, all_hidden, hidden_answer, account_let_in, name_for, word_for};
ghost use Rattle.record_lines.specs.Played.{played_from};
ghost use Rattle.record_lines.specs.Schedules.{IsReplay};
ghost use Rattle.record_lines.specs.Masks.{unread_text};

/// A login with the word that a record has for its own is answered by the accounts of the record as it was. With the
/// name that the record has for its own too, it is let in to the account that it was let in to, or to none as it was.
/// What is a name stays.
pub fn each_login_is_answered_as_it_was()
    ensures answers { (accounts : List Account) (name word : List ℕ)
        → login (all_hidden accounts) name (word_for accounts name word) ≡ hidden_answer (login accounts name word) }
    ensures written { (accounts : List Account) (name word : List ℕ)
        → account_let_in (login (all_hidden accounts) (name_for accounts name word) (word_for accounts name word))
        ≡ account_let_in (hidden_answer (login accounts name word)) }
    ensures names { (accounts : List Account) (name word : List ℕ) → IsTrue (is_name name)
        → name_for accounts name word ≡ name }
    ensures accounts { (account : Account) → IsTrue (is_sound account) → IsTrue (is_sound (hidden account)) }
{}

/// A history puts the same bytes to each client as what its record is played as, and its drains take the same.
pub fn a_record_puts_the_same_bytes()
    ensures put { (settings : Configuration) (accounts : List Account) (history : List Event) (c : ℕ)
        → put_in (empty_lobby settings (all_hidden accounts)) (played_from (empty_lobby settings accounts) history) c
        ≡ put_in (empty_lobby settings accounts) history c }
    ensures taken { (settings : Configuration) (accounts : List Account) (history : List Event) (c : ℕ)
        → taken_in (empty_lobby settings (all_hidden accounts)) (played_from (empty_lobby settings accounts) history) c
        ≡ taken_in (empty_lobby settings accounts) history c }
{}

/// The schedule of a record's steps gives the history that the record was made of, as it is played. So it puts the same
/// bytes to each client, and its reads take the same.
pub fn a_record_is_played_as_it_was()
    ensures events { (settings : Configuration) (accounts : List Account) (history events : List Event)
        → IsReplay settings accounts history events → events ≡ played_from (empty_lobby settings accounts) history }
    ensures put { (settings : Configuration) (accounts : List Account) (history events : List Event) (c : ℕ)
        → IsReplay settings accounts history events
        → put_in (empty_lobby settings (all_hidden accounts)) events c
        ≡ put_in (empty_lobby settings accounts) history c }
    ensures taken { (settings : Configuration) (accounts : List Account) (history events : List Event) (c : ℕ)
        → IsReplay settings accounts history events
        → taken_in (empty_lobby settings (all_hidden accounts)) events c
        ≡ taken_in (empty_lobby settings accounts) history c }
{}

/// The line in place of one that could not be read cannot be read either, for the same cause.
pub fn what_stands_for_unread_lines_is_unread()
    ensures { (request : Request) (fault : ReadFault) → request.command ≡ command.Unread fault
        → IsTrue (is_id request.id)
        → Reads (id_text request.id ++ unread_text fault) request }
{}

/// What a server reads of the files of a head: its settings, if memory is not refused, and its accounts, each with the
/// word that each account of a record has. A file that says nothing lists no account.
pub fn a_head_is_read_as_it_was()
    ensures settings { (settings : Configuration) (file : List ℕ) (answer : Result Setup SetupFault)
        → SetsUp settings file → IsAnswer file answer → ReadsSettings settings answer }
    ensures accounts { (accounts : List Account) (file : List ℕ) → AllByRecursion IsHeld accounts
        → HasDistinctNames accounts → IsAccountsText accounts file
        → file_accounts file ≡ Ok (all_hidden accounts) }
    ensures none { IsAccountsText [] [] }
{}
