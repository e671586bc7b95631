//! The end of the help of `replay`: what it shows, what it refuses, and the exit statuses.

/// The end of the help of `replay`.
pub const REPLAY_ENDING: &str =
    "The journal names its player and its room. A match may still be under way: the journal is read once,
without a lock, and what it keeps at that moment counts. The machine is run from the first frame on,
whatever checkpoints the journal has.

With --json standard output is one object on one line, with the fields frames, pc, i, v, timer, tone,
draws, stack, state and screen; after a refusal it is an object with the field refused, as
'replay 1 Beyond'. docs/FORMATS.md lists what they have. Standard error and the exit status are the same.

What --keys prints is a file of keys for the command run, which then prints the same machine:
  ./c8play replay games/duel.game one.journal --keys > one.keys
  ./c8play run games/duel.game one.keys

The page of --page needs nothing but a browser. It shows the screen, the keys that each player holds,
and where players were dropped.

With --screen the match is shown in the terminal, which needs 64 columns and 17 rows. Space pauses and
goes on, . shows one frame more, the arrows go back and forth by a second, the digits to that tenth of
the match. Escape or control-C ends it; then the report is printed.

Refusals, each one line on standard error, as 'refused: game 5 Hex':
  game 1 Line to 6 Memory: those of the command run
  open 1 WrongGame  the journal is of another game, or of another room than --room says
  open 3 BadRecord  the journal has a record that may not stand there, or none; or its player is not
                    in the game
  open 5 Memory     out of memory
  replay 1 Beyond   fewer frames are confirmed than --to says
  disk 1 Failed     a file that cannot be read, a text above 16777216 bytes, a journal above 1073741824
                    bytes; output or a page that cannot be written; a page in the file of the game
                    or of the journal

Exit status: 0 done, 1 refused, 2 a mistake in the command line, 3 disk 1 Failed";
