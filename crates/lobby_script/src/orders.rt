//! What is done for a client, as steps of the hall.

ghost use Rattle.std.specs.Prelude.{◌≡◌, List, IfOk, OnOk};
ghost use Rattle.account_book.specs.Account.{Account};
ghost use Rattle.lobby_model.specs.declared.event.Event.{Event};
ghost use Rattle.lobby_model.specs.Configuration.{Configuration};
ghost use Rattle.lobby_model.specs.Schedule.{World, StepGives};
ghost use Rattle.lobby_hall.specs.Standing.{Stands};
ghost use Rattle.lobby_script.specs.Acts.{OrderGives, TakesAll, given};
ghost use Rattle.lobby_script.specs.Halls.{IsStanding, Moves};
ghost use Rattle.lobby_model.specs.declared.schedule.Step.TheVariants as step;

use crate::action::Order;
use lobby_hall::{Hall, HallError};
use lobby_model::Step;

/// Connects a client from this address. The number that it gets, if the lobby has a place.
pub fn connect(hall: &mut Hall, ip: [u8; 4]) -> Result<Option<u64>, HallError>
    ensures number { IfOk result (λ client.
        (settings : Configuration) (accounts : List Account) (events : List Event) (world : World)
        → Stands hall.old settings accounts events world → client ≡ given world) }
    ensures moves { OnOk result ((settings : Configuration) (accounts : List Account) (events : List Event)
        (world : World) → Stands hall.old settings accounts events world
        → Moves hall.new settings accounts events (StepGives world (step.Open ip 0))) }
{
    let before = hall.last_client();
    hall.step(&Step::Open { ip, home: 0 })?;
    let after = hall.last_client();
    Ok((after != before).then_some(after))
}

/// Does this for the client.
pub fn carry_out(hall: &mut Hall, client: u64, order: Order) -> Result<(), HallError>
    requires { IsStanding hall.old }
    ensures { OnOk result ((settings : Configuration) (accounts : List Account) (events : List Event) (world : World)
        → Stands hall.old settings accounts events world
        → Moves hall.new settings accounts events (OrderGives world client order)) }
{
    match order {
        Order::Send { bytes } => hall.step(&Step::Arrive { client, bytes }),
        Order::Take => hall.step(&Step::Take { client }),
        Order::All => take_all(hall, client),
        Order::Read { count } => hall.step(&Step::Read {
            client,
            count: count as usize,
        }),
        Order::Shut => hall.step(&Step::Shut { client }),
        Order::Show => Ok(()),
    }
}

/// Takes lines of the client as long as one is ready.
fn take_all(hall: &mut Hall, client: u64) -> Result<(), HallError>
    requires { IsStanding hall.old }
    ensures { OnOk result ((settings : Configuration) (accounts : List Account) (events : List Event) (world : World)
        → Stands hall.old settings accounts events world
        → Moves hall.new settings accounts events (TakesAll world client)) }
{
    while hall.ready(client) {
        hall.step(&Step::Take { client })?;
    }
    Ok(())
}
