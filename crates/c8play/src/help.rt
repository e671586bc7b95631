//! The end of the help of the program: what a refusal looks like, and the exit statuses.

/// The end of the help of the program.
pub const ENDING: &str =
    "A refusal of the input is one line on standard error, as 'refused: game 5 Hex'.
The help of each command lists its refusals. On a terminal, or with --explain, a second line says
what is wrong, and where.

Exit status: 0 done, 1 refused, 2 a mistake in the command line, 3 a disk or a socket failed";
