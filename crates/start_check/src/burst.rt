//! How long the lines of a login can be, which are put into its client's outbox all at once or not at all.

use lobby_model::Settings;

/// The id in front of each line that a client is sent for its own request, as `#2147483647 `.
const ID: usize = 12;

/// `ACCEPTED` with a name of 20 bytes, and `LOGININFOEND`.
const FRAME: usize = 2 * ID + 30 + 13;

/// What a line of the message of the day has besides its text.
const MOTD_LINE: usize = ID + 6;

/// `ADDUSER` and `CLIENTSTATUS` of a user, with a name of 20 bytes and the longest numbers.
const USER: usize = 2 * ID + 55 + 38;

/// `BATTLEOPENED` and `UPDATEBATTLEINFO` of a battle that was opened by a line of 8,192 bytes, of which its texts have
/// 8,161, and whose map was then changed by a line of 8,192 bytes, of which the map has 8,169. Both lines have the map.
const BATTLE: usize = 16_422 + 8_216;

/// `JOINEDBATTLE` of a member of a battle but its founder, with the longest number and a name of 20 bytes.
const MEMBER: usize = ID + 12 + 1 + 10 + 1 + 20 + 1;

/// What a login among so many users is sent besides battles: what is sent of its message of the day is counted as it
/// stands there.
fn without_battles(settings: &Settings, users: usize) -> usize {
    let mut bytes = FRAME.saturating_add(users.saturating_mul(USER));
    for line in settings.motd().as_slice() {
        bytes = bytes.saturating_add(MOTD_LINE.saturating_add(line.as_slice().len()));
    }
    bytes
}

/// The most bytes that a login is sent where so many users can be logged in, itself among them, and each of the others
/// has opened a battle.
pub fn longest_burst(settings: &Settings, users: usize) -> usize {
    let battles = users.saturating_sub(1);
    without_battles(settings, users).saturating_add(battles.saturating_mul(BATTLE))
}

/// How many battles with the longest texts may be open so that a login among so many users fits into its client's
/// outbox, if all others have entered them: each is then the founder of one or a member.
pub fn battles_that_fit(settings: &Settings, users: usize) -> usize {
    let others = users.saturating_sub(1);
    let members = others.saturating_mul(MEMBER);
    let room = settings
        .outbox_limit()
        .saturating_sub(without_battles(settings, users));
    room.saturating_sub(members) / (BATTLE - MEMBER)
}
