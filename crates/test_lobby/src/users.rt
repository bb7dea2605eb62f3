//! Anna, Bert and Cleo: their accounts, the lines with which they log in, and what is told of that.

/// The file of their accounts. All of them have one password.
pub const ACCOUNTS: &[u8] = b"[[account]]
name = \"Anna\"
password = \"X03MO1qnZdYdgyfeuILPmQ==\"
id = 1
country = \"DE\"
[[account]]
name = \"Bert\"
password = \"X03MO1qnZdYdgyfeuILPmQ==\"
id = 2
rank = 3
[[account]]
name = \"Cleo\"
password = \"X03MO1qnZdYdgyfeuILPmQ==\"
id = 3
country = \"FR\"
";

/// The word of that password.
pub const WORD: &[u8] = b"X03MO1qnZdYdgyfeuILPmQ==";

/// The line with which Anna logs in, without its end.
pub const ANNA_SAYS: &[u8] = b"LOGIN Anna X03MO1qnZdYdgyfeuILPmQ== 0 * TestLobby 1.0";

/// The line with which Bert logs in, without its end.
pub const BERT_SAYS: &[u8] = b"LOGIN Bert X03MO1qnZdYdgyfeuILPmQ== 0 * TestLobby 1.0";

/// What Anna sends to log in.
pub const ANNA_LOGS_IN: &[u8] = b"LOGIN Anna X03MO1qnZdYdgyfeuILPmQ== 0 * TestLobby 1.0\n";

/// What Bert sends to log in.
pub const BERT_LOGS_IN: &[u8] = b"LOGIN Bert X03MO1qnZdYdgyfeuILPmQ== 0 * TestLobby 1.0\n";

/// What Cleo sends to log in.
pub const CLEO_LOGS_IN: &[u8] = b"LOGIN Cleo X03MO1qnZdYdgyfeuILPmQ== 0 * TestLobby 1.0\n";

/// What one of a crowd sends behind `LOGIN` and its name, to log in, to join the channel `main` and to ask for an
/// answer.
pub const CROWD_COMES_IN: &[u8] =
    b" X03MO1qnZdYdgyfeuILPmQ== 0 * TestLobby 1.0\nJOIN main\n#7 PING\n";

/// What is said to a client that is opened.
pub const GREETING: &[u8] = b"TASSERVER 0.38 * 8201 0\n";

/// What Anna is told of her login, where nobody else is there.
pub const ANNA_IS_IN: &[u8] = b"ACCEPTED Anna\nMOTD Welcome\nADDUSER Anna DE 0 1\nLOGININFOEND\n";

/// What anyone is told of Bert's login.
pub const BERT_COMES: &[u8] = b"ADDUSER Bert ?? 0 2\nCLIENTSTATUS Bert 12\n";

/// What Bert is told of his login, where Anna is there.
pub const BERT_IS_IN: &[u8] = b"ACCEPTED Bert
MOTD Welcome
ADDUSER Anna DE 0 1
ADDUSER Bert ?? 0 2
CLIENTSTATUS Bert 12
LOGININFOEND
";
