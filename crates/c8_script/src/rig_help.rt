//! The end of the help of `rig`: what it is for, what it refuses, and the exit statuses.

/// The end of the help of `rig`.
pub const RIG_ENDING: &str =
    "Tests peers under real threads, on this machine. Each player opens its peer on an empty disk in
memory, and then makes turns, drawn by a generator of the seed and its number. In a turn it enters
keys, says something, hears something that was said (once, late or again), or takes part in dropping
a player. They exchange nothing else. They race, so two runs with one seed differ in what
happens when, but not in the verdict. Player 1 drops a player in one of 64 of its turns: in matches of
about twenty turns mostly all stay, in matches of hundreds few. If memory runs out for the note
of a turn, its player makes no more turns.

Prints 'lawful yes' if the notes of each player are its part of one log, and then 'agree yes' if all
players that were not dropped agree on the frames that they have confirmed. It is proved that neither
line says no. After 'lawful no' there would be no second line.

The script has each event of the log, in order. The command sim plays it to the same end, in one
thread, unless a player has more than 4096 records: the disks of sim have room for 4096, which 4094
turns cannot fill.

Refusals, each one line on standard error, as 'refused: game 5 Hex':
  game 1 Line to 6 Memory: those of the command run
  open 5 Memory    out of memory
  disk 1 Failed    a file that cannot be read or is above 16777216 bytes;
                   a script or output that cannot be written, or a script in the game's file
  socket 4 Thread  the system starts too few threads; nothing was played

Exit status: 0 done, 1 refused, 2 a mistake in the command line, 3 disk 1 or socket 4";
