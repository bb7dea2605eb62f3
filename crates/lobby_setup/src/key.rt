//! The keys of a file of settings.

ghost use Rattle.std.specs.Prelude.{◌≡◌};
ghost use Rattle.lobby_setup.specs.Keys.{name_of};

/// A key of a file of settings.
#[derive(Clone, Copy, PartialEq, Eq, Debug)]
pub enum Key {
    /// `address`: where the server listens, a text of an IPv4 address, a colon and a port. It has to be there.
    Address,
    /// `workers`: how many threads serve clients, 1 to 64; 4 if left out.
    Workers,
    /// `outbox_limit`: the most bytes that may wait unread for a client, 65536 to 67108864; 4194304 if left out.
    OutboxLimit,
    /// `protocol_version`: the version of the protocol that a client is greeted with, a text of 1 to 32 bytes from `!`
    /// to `~`; `0.38` if left out.
    ProtocolVersion,
    /// `spring_version`: the version of the engine that a client is greeted with, such a text too; `*` if left out.
    SpringVersion,
    /// `udp_port`: the port that a client is greeted with, 0 to 65535; 8201 if left out.
    UdpPort,
    /// `server_mode`: the mode that a client is greeted with, 0 or 1; 0 if left out.
    ServerMode,
    /// `motd`: the lines that a client is sent when it logs in, at most 100 texts of at most 1000 bytes without CR and
    /// LF; none if left out.
    Motd,
    /// `stop_at_input_end`: whether the server stops where its standard input ends; false if left out.
    StopAtInputEnd,
    /// `proxies`: the addresses from which a front connects, so that a connection begins with its line; at most 64
    /// texts of an IPv4 address each; none if left out.
    Proxies,
    /// `log`: how much operators are told on standard error, `none`, `important` or `all`; `important` if left out.
    Log,
    /// `record`: the folder in which what happens is recorded, a text; empty, which is the same as left out, for no
    /// record.
    Record,
    /// `private`: whether a record has what users say in private; false puts `*` for each byte of it; true if left out.
    Private,
}

impl Key {
    /// All of them, in their order.
    pub const ALL: [Key; 13] = [
        Key::Address,
        Key::Workers,
        Key::OutboxLimit,
        Key::ProtocolVersion,
        Key::SpringVersion,
        Key::UdpPort,
        Key::ServerMode,
        Key::Motd,
        Key::StopAtInputEnd,
        Key::Proxies,
        Key::Log,
        Key::Record,
        Key::Private,
    ];

    /// How it is written in the file.
    pub fn name(self) -> &'static str
        ensures { result.now ≡ name_of self }
    {
        match self {
            Key::Address => "address",
            Key::Workers => "workers",
            Key::OutboxLimit => "outbox_limit",
            Key::ProtocolVersion => "protocol_version",
            Key::SpringVersion => "spring_version",
            Key::UdpPort => "udp_port",
            Key::ServerMode => "server_mode",
            Key::Motd => "motd",
            Key::StopAtInputEnd => "stop_at_input_end",
            Key::Proxies => "proxies",
            Key::Log => "log",
            Key::Record => "record",
            Key::Private => "private",
        }
    }

    /// What its value has to be, for people.
    pub(crate) fn expected(self) -> &'static str {
        match self {
            Key::Address => "an IPv4 address and a port, as \"127.0.0.1:8200\"",
            Key::Workers => "a whole number from 1 to 64",
            Key::OutboxLimit => "a whole number from 65536 to 67108864",
            Key::ProtocolVersion | Key::SpringVersion => "a text of 1 to 32 bytes from `!` to `~`",
            Key::UdpPort => "a whole number from 0 to 65535",
            Key::ServerMode => "0 or 1",
            Key::Motd => "a list of at most 100 texts of at most 1000 bytes without CR and LF",
            Key::StopAtInputEnd | Key::Private => "true or false",
            Key::Proxies => "a list of at most 64 IPv4 addresses, as [\"127.0.0.1\"]",
            Key::Log => "\"none\", \"important\" or \"all\"",
            Key::Record => "the name of a folder, or an empty text",
        }
    }
}
