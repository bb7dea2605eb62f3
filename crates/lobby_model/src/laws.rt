//! Laws of the plain lobby. Each function takes nothing and does nothing: its contract is the law.

ghost use Rattle.std.specs.Prelude.{◌≡◌, ◌≤◌, ◌<◌, ◌⊎◌, ℕ, List, [], ◌∷◌, ◌++◌, Option, Some, None, IsSome, true};
ghost use Rattle.std.specs.Prelude.{false};
ghost use Rattle.std.specs.Option.{unwrap_or};
ghost use Rattle.account_book.specs.Account.{Account};
ghost use Rattle.command_grammar.specs.declared.command.Command.{Command};
ghost use Rattle.command_grammar.specs.declared.command.Request.{Request};
ghost use Rattle.reply_kinds.specs.declared.Reply.{Reply};
ghost use Rattle.lobby_model.specs.declared.event.Event.{Event};
ghost use Rattle.lobby_model.specs.declared.event.Event.TheVariants.{Say};
ghost use Rattle.lobby_model.specs.declared.schedule.Step.{Step};
ghost use Rattle.line_words.specs.Table.{at_number};
ghost use Rattle.lobby_model.specs.Configuration.{Configuration};
ghost use Rattle.lobby_model.specs.State.{State, Client, empty_lobby, name_of};
ghost use Rattle.lobby_model.specs.Outcome.{state_after};
ghost use Rattle.lobby_model.specs.Commands.{answer};
ghost use Rattle.lobby_model.specs.Events.{effect, refusal};
ghost use Rattle.lobby_model.specs.Next.{next, put_by, taken_by};
ghost use Rattle.lobby_model.specs.History.{after, put_in, taken_in};
ghost use Rattle.lobby_model.specs.Schedule.{World, Gives};
ghost use Rattle.lobby_model.specs.Laws.{IsVoid, OneForEach, number_given, without_bytes};
ghost use Rattle.lobby_model.specs.Sound.{Sound};

/// No byte is lost or made: for a client that is neither cut nor removed, what its drains took,
/// followed by what it has not read, is all that was put to it.
pub fn taken_then_unread()
    ensures { (settings : Configuration) (accounts : List Account) (history : List Event) (c : ℕ) (client : Client)
        → at_number (after (empty_lobby settings accounts) history).clients c ≡ Some client → client.cut ≡ false
        → taken_in (empty_lobby settings accounts) history c ++ client.unread
        ≡ put_in (empty_lobby settings accounts) history c }
{}

/// A schedule gives one list of events and leaves one world, whatever world it begins in.
pub fn schedule_gives_one_history()
    ensures some { (start : World) (steps : List Step)
        → (events : List Event) × (end : World) × Gives start steps events end }
    ensures same { (start : World) (steps : List Step) (events others : List Event) (end other_end : World)
        → Gives start steps events end → Gives start steps others other_end → (events ≡ others) × (end ≡ other_end) }
{}

/// A command that is refused changes no map: all that it can change is what waits for its issuer,
/// and whether the issuer is cut.
pub fn refused_command_changes_no_map()
    ensures effect { (s : State) (c : ℕ) (request : Request) (reply : Reply)
        → refusal s c request.command ≡ Some reply → effect s (Say c request) ≡ s }
    ensures rest { (s : State) (c : ℕ) (request : Request) (reply : Reply)
        → refusal s c request.command ≡ Some reply
        → ((next s (Say c request)).settings ≡ s.settings) × ((next s (Say c request)).accounts ≡ s.accounts)
        × ((next s (Say c request)).users ≡ s.users) × ((next s (Say c request)).channels ≡ s.channels)
        × ((next s (Say c request)).battles ≡ s.battles) × ((next s (Say c request)).last_client ≡ s.last_client)
        × ((next s (Say c request)).last_battle ≡ s.last_battle) }
    ensures clients { (s : State) (c : ℕ) (request : Request) (reply : Reply)
        → refusal s c request.command ≡ Some reply
        → without_bytes (next s (Say c request)).clients ≡ without_bytes s.clients }
{}

/// The lobby is sound after any history: its maps stand in the order of their keys, and no client
/// and no battle has a number above the last that was given. Clients and users agree. Who is in a
/// channel is a user, once, and a channel is there only while it has members. Who is in a battle is
/// a user, once, and in no other battle; the founder is the first member. Names of bots, keys of tags
/// and disabled units stand once, the units are at most 1,024, and a bot's owner is a member. Who asks
/// to join a battle is a user, asks at one battle, there once, and is in none.
///
/// Each event keeps a sound lobby sound, before its lines are put and after, and so does each
/// command of a client that is there.
pub fn lobby_stays_sound()
    ensures always { (settings : Configuration) (accounts : List Account) (history : List Event)
        → Sound (after (empty_lobby settings accounts) history) }
    ensures effect { (s : State) (e : Event) → Sound s → Sound (effect s e) }
    ensures next { (s : State) (e : Event) → Sound s → Sound (next s e) }
    ensures answer { (s : State) (c : ℕ) (me : Option (List ℕ)) (command : Command)
        → Sound s → IsSome (at_number s.clients c) → name_of s c ≡ me → Sound (state_after s (answer s c me command)) }
{}

/// After any history no two clients bear one name, each client that is logged in has its user, and
/// each user its client.
pub fn one_client_for_each_user()
    ensures { (settings : Configuration) (accounts : List Account) (history : List Event)
        → OneForEach (after (empty_lobby settings accounts) history) }
{}

/// A void event, that of a client that is not there or an open that is refused, does nothing: the
/// state stays as it is, no client gets a byte, and none is taken.
pub fn void_event_does_nothing()
    ensures state { (s : State) (e : Event) → IsVoid s e → next s e ≡ s }
    ensures put { (s : State) (e : Event) → IsVoid s e → (c : ℕ) → put_by s e c ≡ [] }
    ensures taken { (s : State) (e : Event) → IsVoid s e → (c : ℕ) → taken_by s e c ≡ [] }
{}

/// A client that is cut has nothing to read, gets nothing more, and stays cut for as long as it is
/// there.
pub fn cut_client_gets_nothing()
    ensures unread { (settings : Configuration) (accounts : List Account) (history : List Event) (c : ℕ)
        (client : Client)
        → at_number (after (empty_lobby settings accounts) history).clients c ≡ Some client → client.cut ≡ true
        → client.unread ≡ [] }
    ensures put { (settings : Configuration) (accounts : List Account) (history later : List Event) (c : ℕ)
        (client : Client)
        → at_number (after (empty_lobby settings accounts) history).clients c ≡ Some client → client.cut ≡ true
        → put_in (after (empty_lobby settings accounts) history) later c ≡ [] }
    ensures stays { (settings : Configuration) (accounts : List Account) (history later : List Event) (c : ℕ)
        (client end : Client)
        → at_number (after (empty_lobby settings accounts) history).clients c ≡ Some client → client.cut ≡ true
        → at_number (after (after (empty_lobby settings accounts) history) later).clients c ≡ Some end
        → end.cut ≡ true }
{}

/// No client number is given twice: one that is given later is greater. A number comes with a
/// client, and no client has one that was not given: numbers are 1 to the last one given. Once its
/// client is gone a number has no client again.
pub fn no_number_is_given_twice()
    ensures later { (s : State) (first : Event) (between : List Event) (second : Event) (n m : ℕ)
        → number_given s first ≡ Some n → number_given (after s (first ∷ between)) second ≡ Some m → n < m }
    ensures last { (s : State) (e : Event) → (next s e).last_client ≡ unwrap_or (number_given s e) s.last_client }
    ensures client { (s : State) (e : Event) (n : ℕ) → number_given s e ≡ Some n
        → IsSome (at_number (next s e).clients n) }
    ensures given { (s : State) (e : Event) (c : ℕ)
        → IsSome (at_number (next s e).clients c) → IsSome (at_number s.clients c) ⊎ (number_given s e ≡ Some c) }
    ensures numbers { (settings : Configuration) (accounts : List Account) (history : List Event) (c : ℕ)
        (client : Client)
        → at_number (after (empty_lobby settings accounts) history).clients c ≡ Some client
        → (0 < c) × (c ≤ (after (empty_lobby settings accounts) history).last_client) }
    ensures gone { (s : State) (history : List Event) (c : ℕ)
        → c ≤ s.last_client → at_number s.clients c ≡ None → at_number (after s history).clients c ≡ None }
{}
