//! A step of a record, played in a hall.

ghost use Rattle.std.specs.Prelude.{◌≡◌, OnOk, OnErr};
ghost use Rattle.lobby_model.specs.declared.schedule.Step.TheVariants as step;
ghost use Rattle.record_play.specs.Steps.{IsOrdered, SaysStep};
ghost use Rattle.record_play.specs.Replays.{PlaysStep};

use crate::fault::StepFault;
use lobby_hall::Hall;
use lobby_model::Step;
use lobby_script::{Action, Order, read_action};
use std::alloc::Global;

/// Plays a step: a connect that gets the client's number, bytes, a take that finds a line, a read of as many bytes as
/// it says, or a disconnect. A step for a label is one for the client of this number. What is refused is not played.
pub fn play_step(alloc: Global, hall: &mut Hall, step: &[u8]) -> Result<(), StepFault>
    ensures ok { OnOk result (PlaysStep hall.old (SaysStep step.now) hall.new) }
    ensures err { OnErr result (hall.new ≡ hall.old) }
{
    match read_action(alloc, step)? {
        Some(Action::Open { label, ip }) => open(hall, u64::from(label), ip),
        Some(Action::Client { label, order }) => carry_out(hall, u64::from(label), order),
        Some(Action::Set { setting: _ }) | None => Err(StepFault::BadStep),
    }
}

fn open(hall: &mut Hall, client: u64, ip: [u8; 4]) -> Result<(), StepFault>
    ensures ok { OnOk result (PlaysStep hall.old (λ s. s ≡ step.Open ip 0) hall.new) }
    ensures err { OnErr result (hall.new ≡ hall.old) }
{
    if !hall.has_place() || hall.last_client().checked_add(1) != Some(client) {
        return Err(StepFault::OtherCourse);
    }
    Ok(hall.step(&Step::Open { ip, home: 0 })?)
}

fn carry_out(hall: &mut Hall, client: u64, order: Order) -> Result<(), StepFault>
    ensures ok { OnOk result (PlaysStep hall.old (IsOrdered client order) hall.new) }
    ensures err { OnErr result (hall.new ≡ hall.old) }
{
    match order {
        Order::Send { bytes } => Ok(hall.step(&Step::Arrive { client, bytes })?),
        Order::Take if hall.ready(client) => Ok(hall.step(&Step::Take { client })?),
        Order::Take => Err(StepFault::OtherCourse),
        Order::Read { count } => read(hall, client, count as usize),
        Order::Shut => Ok(hall.step(&Step::Shut { client })?),
        Order::All | Order::Show => Err(StepFault::BadStep),
    }
}

/// Has a client read just so many bytes.
fn read(hall: &mut Hall, client: u64, count: usize) -> Result<(), StepFault>
    ensures ok { OnOk result (PlaysStep hall.old (λ s. s ≡ step.Read client count) hall.new) }
    ensures err { OnErr result (hall.new ≡ hall.old) }
{
    if count > hall.unread(client) {
        return Err(StepFault::OtherCourse);
    }
    Ok(hall.step(&Step::Read { client, count })?)
}
