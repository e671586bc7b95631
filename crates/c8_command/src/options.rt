//! Arguments that the commands of a match share.

use crate::outline::{Argument, Form};

/// The path of the game.
pub const GAME: Argument = Argument {
    name: "GAME",
    help: "The path of the game's text or of a .ch8 program, the same for all",
    ..Argument::NEEDED
};

/// The addresses of the other players.
pub const REMOTES: Argument = Argument {
    name: "REMOTE",
    help: "The other players' addresses or names, in order of their numbers; none with --relay",
    form: Form::Words(0, usize::MAX),
    ..Argument::NEEDED
};

/// The own address. A match through a relay needs none.
pub const LOCAL: Argument = Argument {
    name: "LOCAL",
    help: "The own address, as 127.0.0.1:4001; with --relay it may be left out",
    form: Form::Optional,
    ..Argument::NEEDED
};

/// The option `--relay`.
pub const RELAY: Argument = Argument {
    name: "relay",
    help: "Goes through the relay at this address or name, as relay.example.org:4001 (needs --secret)",
    form: Form::Option("HOST:PORT"),
    ..Argument::NEEDED
};

/// The option `--room`.
pub const ROOM: Argument = Argument {
    name: "room",
    help: "The number of the match, the same for all its players [default: 0]",
    ..Argument::NUMBER
};

/// The option `--patience`.
pub const PATIENCE: Argument = Argument {
    name: "patience",
    help: "Player 1 drops a player after N silent turns [default: never]",
    ..Argument::NUMBER
};

/// The option `--stop`.
pub const STOP: Argument = Argument {
    name: "stop",
    help: "Ends once N frames are confirmed [default: never]",
    ..Argument::NUMBER
};

/// The option `--checkpoint`.
pub const CHECKPOINT: Argument = Argument {
    name: "checkpoint",
    help: "Makes a checkpoint after every N confirmed frames, 0 for never",
    default: Some("0"),
    ..Argument::NUMBER
};

/// The option `--watch5`.
pub const WATCH5: Argument = Argument {
    name: "watch5",
    help: "Shows the match to a watcher at this address (player 1 only)",
    form: Form::Option("ADDR"),
    ..Argument::NEEDED
};

/// The option `--watch6`.
pub const WATCH6: Argument = Argument {
    name: "watch6",
    ..WATCH5
};

/// The option `--secret`.
pub const SECRET: Argument = Argument {
    name: "secret",
    help: "The file of the players' secret: packets are sealed with it",
    ..Argument::FILE
};

/// The option `--watch-secret`.
pub const WATCH_SECRET: Argument = Argument {
    name: "watch-secret",
    help: "The file of the watchers' secret (player 1 only)",
    ..Argument::FILE
};
