//! Words of the protocol's own examples, and of its tables of bits.

use crate::verdict::same;
use status_bits::{BattleStatus, UserStatus, merge_battle, merge_user};

#[test]
fn mystatus_sets_in_game_and_away_alone(rt: HostRuntime) {
    let bert = UserStatus::of_account(3, false, false);
    let asked = merge_user(bert, 127);
    same(&rt, (bert.word(), asked.word()), (12, 15));
    same(
        &rt,
        (
            asked.in_game(),
            asked.away(),
            asked.rank(),
            asked.access(),
            asked.bot(),
        ),
        (true, true, 3, false, false),
    );
    let all = UserStatus::of_account(7, true, true);
    let none = merge_user(UserStatus::of_account(0, true, false), 0);
    same(&rt, (all.word(), none.word()), (124, 32));
}

#[test]
fn fields_of_a_battle_status(rt: HostRuntime) {
    // Bits 1, 2, 3, 6, 10, 22 and 25.
    let status = merge_battle(BattleStatus::zero(), 37_749_838);
    same(
        &rt,
        (
            status.word(),
            status.ready(),
            status.team(),
            status.ally(),
            status.player(),
            status.handicap(),
            status.sync(),
            status.side(),
        ),
        (37_749_838, true, 3, 1, true, 0, 1, 2),
    );
}

#[test]
fn settings_of_the_founder(rt: HostRuntime) {
    let status = merge_battle(BattleStatus::zero(), 37_749_838);
    let forced = status.with_team(5);
    same(
        &rt,
        (
            status.with_handicap(50).word(),
            forced.word(),
            forced.as_spectator().word(),
            BattleStatus::zero().with_ally(15).word(),
        ),
        (37_852_238, 37_749_846, 37_748_822, 960),
    );
}

#[test]
fn mybattlestatus_keeps_the_handicap(rt: HostRuntime) {
    let status = merge_battle(BattleStatus::zero(), 37_749_838);
    same(
        &rt,
        (
            merge_battle(status, u32::MAX).word(),
            merge_battle(status.with_handicap(50), u32::MAX).word(),
        ),
        (264_243_198, 264_345_598),
    );
}
