//! The end of the help of `watch`: what it takes, what it refuses, and the exit statuses.

/// The end of the help of `watch`.
pub const WATCH_ENDING: &str =
    "Player 1 of the match starts with --watch5 ADDR or --watch6 ADDR, the address of this watcher. It then
shows the confirmed frames, from the first one on, and no predicted ones. A watcher keeps no file:
after a restart it gets the match from the first frame again. Nobody waits for it: player 1 ends 120
turns after the players are done.
The command ends when it has the whole game, once it has as many frames as --stop says, or after the
last turn. It then prints the machine after the frames that it has. With --screen it draws the screen
meanwhile, sixty times a second by the clock; standard output must then be a terminal of at least 64
columns and 17 rows. The row below says how many frames there are, and what is wrong; Escape ends. If
player 1 has --watch-secret FILE, a watcher takes the same file as --secret.
With --cast it keeps the match in FOLDER as files, which any web server serves: match.json, chunks of
600 rows, rows/000000.bin and so on, and tail.bin with the newer ones, once a second. A chunk never
changes. A second start goes on with the folder: it takes the rows again and compares. If the cast
fails, two lines on standard error say why, as 'refused: cast 2 Differs', and the match is watched on.

Two players and a watcher, each in a terminal of their own:
  ./c8play peer games/duel.game 1 one.journal 127.0.0.1:4001 127.0.0.1:4002 --watch5 127.0.0.1:4005 \\
    < games/duel.1.keys
  ./c8play peer games/duel.game 2 two.journal 127.0.0.1:4002 127.0.0.1:4001 < games/duel.2.keys
  ./c8play watch games/duel.game 5 127.0.0.1:4005 127.0.0.1:4001 --screen

With --relay neither LOCAL nor REMOTE is needed. It needs --secret, and player 1 gives --watch5 -. A match
card for watchers, which `host --card --watch` writes, has all of that:
  ./c8play watch rally.watch.card --screen

Refusals, each one line on standard error, as 'refused: game 5 Hex':
  game 1 Line to 6 Memory: those of the command run
  secret 1 Bad        a secret that is not 64 hexadecimal digits and at most one line feed
  open 5 Memory       out of memory at the start
  disk 1 Failed       a file that cannot be read, or a text above 16777216 bytes
  socket 1 Failed     the socket cannot be opened, or was closed, or 4294967295 packets were sealed
  socket 3 Address    an address that is not written as 127.0.0.1:4001, or a name that the system does not
                      find; or a REMOTE with port 0, or of another IP version than LOCAL
  socket 4 Thread     the system starts no more threads
  cast 1 Failed       a file of --cast cannot be read or written: the disk is full, or the folder gone
  cast 2 Differs      the folder of --cast has another match, or a file of it was changed
  cast 3 Memory       out of memory for the cast

Exit status: 0 done, 1 refused, 2 a mistake in the command line, 3 a disk or a socket failed";
