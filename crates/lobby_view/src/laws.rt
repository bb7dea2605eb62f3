//! The laws of the view. Each function does nothing: its contract is the law. Those that speak of a lobby from its
//! first event on take the settings and the accounts that it begins with, which keep their bounds by their types.

ghost use Rattle.std.specs.Prelude.{◌≡◌, ◌≢◌, ◌≤◌, ℕ, List, [], ◌∷◌, ◌++◌, length, Option, Some, true, false};
ghost use Rattle.std.specs.List.{AllByRecursion};
ghost use Rattle.lobby_model.specs.declared.event.Event.{Event};
ghost use Rattle.lobby_model.specs.declared.schedule.Step.{Step};
ghost use Rattle.lobby_model.specs.State.{State, Client, empty_lobby, name_of, hears};
ghost use Rattle.lobby_model.specs.Events.{effect};
ghost use Rattle.lobby_model.specs.Next.{put_by};
ghost use Rattle.lobby_model.specs.History.{after, put_in, taken_in};
ghost use Rattle.lobby_view.specs.Observe.{observe};
ghost use Rattle.lobby_model.specs.Schedule.{World, new_world, Gives};
ghost use Rattle.lobby_view.specs.View.{shown_all};
ghost use Rattle.lobby_model.specs.declared.event.Phase.TheVariants.{In};
ghost use Rattle.line_words.specs.Table.{at_number};
ghost use Rattle.line_framer.specs.Frames.{frames, is_spoilt, rest_of};
ghost use Rattle.lobby_view.specs.Bytes.{frame_limit, all_read, view};
ghost use Rattle.reply_kinds.specs.Replies.{Fits, IsId, print};
ghost use Rattle.lobby_model.specs.Events.{sent};
ghost use Rattle.lobby_view.specs.Legal.{IsLegal, IsLegalHistory, IsLegalSchedule};
ghost use Rattle.lobby_view.specs.Private.{whispers};

use account_book::AccountBook;
use lobby_model::Settings;

/// A client that is logged in, neither cut nor ended, and folds all bytes that were put to it holds
/// exactly what the plain lobby shows it: after every legal history, and at the end of every legal
/// schedule. So does one that has read all of them and folds what it has read.
pub fn view_law(settings: &Settings, accounts: &AccountBook)
    ensures history { (history : List Event) → IsLegalHistory history
        → (c : ℕ) (u : List ℕ) → name_of (after (empty_lobby settings.now accounts.now) history) c ≡ Some u
        → hears (after (empty_lobby settings.now accounts.now) history) c ≡ true
        → view (put_in (empty_lobby settings.now accounts.now) history c)
        ≡ observe (after (empty_lobby settings.now accounts.now) history) u }
    ensures read { (history : List Event) → IsLegalHistory history
        → (c : ℕ) (u : List ℕ) (client : Client)
        → at_number (after (empty_lobby settings.now accounts.now) history).clients c ≡ Some client
        → client.phase ≡ In u → client.cut ≡ false → client.unread ≡ []
        → view (taken_in (empty_lobby settings.now accounts.now) history c)
        ≡ observe (after (empty_lobby settings.now accounts.now) history) u }
    ensures schedule { (steps : List Step) (events : List Event) (end : World) → IsLegalSchedule steps
        → Gives (new_world settings.now accounts.now) steps events end
        → (c : ℕ) (u : List ℕ) → name_of end.lobby c ≡ Some u → hears end.lobby c ≡ true
        → view (put_in (empty_lobby settings.now accounts.now) events c) ≡ observe end.lobby u }
{
    settings.keep_their_bounds();
    accounts.keeps_its_rules();
}

/// No line that the server sends, to whomever and of whatever event, is longer than 20,480 bytes with
/// its LF: after every legal history. So who cuts the bytes that were put to a client into lines of
/// at most 20,479 bytes, LF aside, never finds one that is longer.
pub fn line_length_law(settings: &Settings, accounts: &AccountBook)
    ensures sent { (history : List Event) → IsLegalHistory history → (e : Event) → IsLegal e → (c : ℕ)
        → AllByRecursion (λ line. length (print line)
        ≤ 20480) (sent (after (empty_lobby settings.now accounts.now) history) e c) }
    ensures put { (history : List Event) → IsLegalHistory history → (c : ℕ)
        → is_spoilt (put_in (empty_lobby settings.now accounts.now) history c) frame_limit ≡ false }
{
    settings.keep_their_bounds();
    accounts.keeps_its_rules();
}

/// Each line that the server sends, to whomever and of whatever event, has arguments of their kinds
/// and an id of at most 2147483647, if it has one: after every legal history. So it reads as its id
/// and its reply, and as nothing else.
pub fn line_kinds_law(settings: &Settings, accounts: &AccountBook)
    ensures { (history : List Event) → IsLegalHistory history → (e : Event) → IsLegal e → (c : ℕ)
        → AllByRecursion (λ line. IsId line.0
        × Fits line.1) (sent (after (empty_lobby settings.now accounts.now) history) e c) }
{
    settings.keep_their_bounds();
    accounts.keeps_its_rules();
}

/// A view goes on from what it holds and the bytes of the line that is not whole yet, however the
/// bytes are cut; behind a spoilt place nothing changes it.
pub fn pieces_law()
    ensures sound { (bytes : List ℕ) (more : List ℕ) → is_spoilt bytes frame_limit ≡ false
        → view (bytes ++ more) ≡ shown_all (view bytes) (all_read (frames (rest_of bytes ++ more) frame_limit)) }
    ensures spoilt { (bytes : List ℕ) (more : List ℕ) → is_spoilt bytes frame_limit ≡ true
        → view (bytes ++ more) ≡ view bytes }
{}

/// What client c says to the user u in private changes no map and puts nothing to any client that is
/// neither c nor logged in as u. Two histories that are equal but in one place, where it says two texts
/// of equal length under one id, put the same bytes to each of those others, and to those two as many.
pub fn private_law()
    ensures unchanged { (s : State) (c : ℕ) (id : Option ℕ) (u : List ℕ) (x : List ℕ)
        → effect s (whispers c id u x) ≡ s }
    ensures alone { (s : State) (c : ℕ) (id : Option ℕ) (u : List ℕ) (x : List ℕ) (d : ℕ)
        → d ≢ c → name_of s d ≢ Some u → put_by s (whispers c id u x) d ≡ [] }
    ensures others { (s : State) (before : List Event) (later : List Event) (c : ℕ) (id : Option ℕ) (u : List ℕ)
        (x : List ℕ) (y : List ℕ)
        → length x ≡ length y → (d : ℕ) → d ≢ c → name_of (after s before) d ≢ Some u
        → put_in s (before ++ whispers c id u x ∷ later) d ≡ put_in s (before ++ whispers c id u y ∷ later) d }
    ensures lengths { (s : State) (before : List Event) (later : List Event) (c : ℕ) (id : Option ℕ) (u : List ℕ)
        (x : List ℕ) (y : List ℕ)
        → length x ≡ length y → (d : ℕ)
        → length (put_in s (before ++ whispers c id u x ∷ later) d)
        ≡ length (put_in s (before ++ whispers c id u y ∷ later) d) }
{}
