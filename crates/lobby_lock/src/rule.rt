//! The rule of the desk, and what each of its steps tells. These types are for the proofs alone.

use crate::laid::Laid;
use crate::view::View;
use crossbeam_queue::protocol::{Join, Lesson, Outcome, Protocol, Split};
use crossbeam_queue::{Pass, RuledArrayQueue};
use std::marker::{Brand, PhantomData};

/// There is one history.
pub struct OneHistory;

impl Protocol<Laid, View> for OneHistory {
    ghost use Rattle.lobby_lock.specs.Rule.{OneHistory as one_history, first_view};

    ghost holds = { one_history };

    ghost first = { first_view };
}

/// The events of a hold, which a call names.
pub trait Happened {
    ghost use Rattle.std.specs.Prelude.{List};
    ghost use Rattle.lobby_model.specs.declared.event.Event.{Event};

    ghost events: { List Event };
}

impl Happened for Brand {
    ghost use Rattle.std.specs.Prelude.{[]};

    ghost events = { [] };
}

/// The lobby is first put into its place.
pub struct Opening;

impl Outcome<Laid, View> for Opening {
    ghost use Rattle.std.specs.Prelude.{◌≡◌};
    ghost use Rattle.lobby_lock.specs.Rule.{opened};

    ghost then = { λ v x w. w ≡ opened v x };
}

impl Lesson<Laid, View> for Opening {
    ghost use Rattle.std.specs.Prelude.{◌≡◌, []};

    ghost fact = { λ v items. items ≡ [] };
}

/// A hold of these events ends.
pub struct Giving<E> {
    marker: PhantomData<E>,
}

impl<E: Happened> Outcome<Laid, View> for Giving<E> {
    ghost use Rattle.std.specs.Prelude.{◌≡◌};
    ghost use Rattle.lobby_lock.specs.Rule.{gave};

    ghost then = { λ v x w. w ≡ gave v x E.events };
}

impl<E> Lesson<Laid, View> for Giving<E> {
    ghost use Rattle.std.specs.Prelude.{◌≡◌, []};

    ghost fact = { λ v items. items ≡ [] };
}

/// The lobby is taken.
pub struct Taking;

impl Outcome<Laid, View> for Taking {
    ghost use Rattle.lobby_lock.specs.Rule.{Took};

    ghost then = { Took };
}

/// The lobby is taken for good.
pub struct TakingForGood;

impl Outcome<Laid, View> for TakingForGood {
    ghost use Rattle.lobby_lock.specs.Rule.{Closed};

    ghost then = { Closed };
}

/// A worker more gets a pass.
pub struct HandingOut;

impl Split<View> for HandingOut {
    ghost use Rattle.lobby_lock.specs.Rule.{giver, newcomer};

    ghost left = { giver };

    ghost right = { newcomer };
}

/// The pass of a worker that has ended comes back.
pub struct TakingBack;

impl Join<View> for TakingBack {
    ghost use Rattle.lobby_lock.specs.Rule.{with_taken_back, spent_view};

    ghost both = { with_taken_back };

    ghost spent = { spent_view };
}

/// What is known of the worker whose pass came back last.
pub struct LastBack;

impl Lesson<Laid, View> for LastBack {
    ghost use Rattle.lobby_lock.specs.Rule.{LastEnded};

    ghost fact = { λ v items. LastEnded v v.taken_back };
}

/// Where the lobby lies.
pub type Place = RuledArrayQueue<Laid, View, OneHistory>;

/// A pass of that place.
pub type PlacePass = Pass<Laid, View>;
