//! The table of replies: a row for each, its command word and its fields in the order in which they are
//! printed. Printing, reading and the search for a command word are written out from it.
//!
//! It stands beside the printer, since the check sees what a lent field of a reply is only where the table is
//! of the crate that prints it.

/// Gives the table to another macro, behind what that one is given. A field behind a `;` has all arguments that
/// are left.
#[macro_export]
macro_rules! with_replies {
    ($write:ident($($given:ident),*)) => {
        $write! {
            ($($given),*)
            // Written by tools/protocol.py of protocol/replies.toml: rows.
            TasServer { protocol_version, spring_version, udp_port, server_mode }
            Accepted { user }
            Denied { text }
            Motd { text }
            ServerMsg { text }
            AddUser { user, country, cpu, account }
            RemoveUser { user }
            ClientStatus { user, status }
            LoginInfoEnd {}
            Pong {}
            Join { channel }
            Clients { channel, names }
            Joined { channel, user }
            Left { channel, user }
            JoinFailed { channel, reason }
            Said { channel, user, text }
            SaidEx { channel, user, text }
            SayPrivate { user, text }
            SaidPrivate { user, text }
            Channel { channel, user_count }
            EndOfChannels {}
            OpenBattle { battle }
            OpenBattleFailed { text }
            BattleOpened { battle; opened }
            BattleClosed { battle }
            JoinBattle { battle, game_hash }
            JoinBattleFailed { text }
            JoinedBattle { battle, user, script_password }
            LeftBattle { battle, user }
            UpdateBattleInfo { battle, spectator_count, locked, map_hash, map }
            RequestBattleStatus {}
            ClientBattleStatus { user, battle_status, team_color }
            SaidBattle { user, text }
            SaidBattleEx { user, text }
            AddBot { battle, bot, owner, battle_status, team_color, ai }
            UpdateBot { battle, bot, battle_status, team_color }
            RemoveBot { battle, bot }
            AddStartRect { ally_no, left, top, right, bottom }
            RemoveStartRect { ally_no }
            SetScriptTags { pairs }
            RemoveScriptTags { keys }
            ForceQuitBattle {}
            Ring { user }
            JoinBattleRequest { user, ip }
            DisableUnits { units }
            EnableUnits { units }
            EnableAllUnits {}
            // End of what is written: rows.
        }
    };
}

/// Arguments as a row: each in front of those behind it.
#[macro_export]
macro_rules! row {
    () => { () };
    (; $rest:ident) => { $rest };
    ($first:ident $(, $others:ident)* $(; $rest:ident)?) => { ($first, row!($($others),* $(; $rest)?)) };
}
