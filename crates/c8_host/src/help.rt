//! The ends of the help of `host` and `join`.

/// The end of the help of `host`.
pub const HOST_ENDING: &str =
    "The terminal shows the line that your friend types. Your friend needs the same game file, and the file
of the secret: send it by a way that nobody else reads. GAME.secret is made once, and serves for all
matches of this game. The room is new each time. With --card FILE all of that is in one file, the match
card: send it privately, and your friend types ./c8play join FILE. With --watch somebody may watch, in seat 5:
the terminal shows the line to type, which takes the watchers' own secret, as rally.game.watch.secret, or with
--card a card that has it, as rally.watch.card.

  ./c8play host games/rally.game
  ./c8play host games/rally.game --card rally.card --watch
  ./c8play host games/rally.game --relay relay.example.org:4001

With --relay nobody opens a port, and a game may have up to four players: all meet at a relay, a server on
which `c8play relay` runs. If that serves the page, the terminal also shows a link for each other player: who
opens it in a browser plays. A link holds the secret, so send it by a way that nobody else reads.

The match begins once the friend is there; until then the row below the picture says for whom it waits.
The row also has your keys, until ten seconds after the match begins; F1 shows them again. Escape ends.
control-D, twice, drops a player who was there and went silent; --patience N does that by itself after N
turns. Nobody is dropped who never came, unless a third player waits too (then control-D does).
Without a relay a friend in another network needs your router's address, and the router forwards the UDP
port to this machine. Keys, screen and the rest are as in the command play; both players have 60 frames a second.

Each player keeps a journal beside the secret, as rally.game.3735928559.1.journal: a player whose program ends
comes back with the line that the program shows at its end: the same, the one who hosts with --room ROOM. If
the disk is too slow for that, the program says so and plays without one, as with --no-journal. Before the
invitation is shown, port, secret and journal are tried.

Refusals and exit statuses are those of the command peer; a secret that cannot be made is disk 1 Failed.";

/// The end of the help of `join`.
pub const JOIN_ENDING: &str =
    "The friend's terminal shows the whole line. A match card that the friend sends has all that is needed;
with an ADDRESS behind it the match is looked for there. Without a card the secret's file is needed. If it
is missing, the command reads the 64 digits from standard input, unseen, and keeps them in that file if
somebody answers:

  ./c8play join rally.card
  ./c8play join games/rally.game 192.0.2.7:4001 3735928559 --secret rally.game.secret
  ./c8play join games/rally.game 192.0.2.7:4001 3735928559
  ./c8play join games/rally.game 3735928559 --relay relay.example.org:4001 --secret rally.game.secret

Keys, screen and the rest are as in the command play; both players have 60 frames a second. The row below
the picture has your keys, until ten seconds after the match begins; F1 shows them again. After a crash the
same line goes on where the match was: a journal stands beside the secret, unless --no-journal.

Refusals and exit statuses are those of the command peer.";
