//! The files of a watched match, which `--cast` keeps.

ghost use Rattle.std.specs.Prelude.{◌≤◌, length};

use crate::arguments::WatchAsked;
use crate::worker::Picture;
use c8_cast::{About, Cast, CastError, Folder, FolderAt};
use c8_game::{Game, MOST_FRAMES, Row};
use c8_spectator::Spectator;
use c8_terminal::Beat;
use std::alloc::Global;
use std::fs::File;
use std::io::Write;
use std::rt::Files;
use std::time::{Clock, Duration};

/// How often a second new rows are written.
const RATE: u8 = 1;

/// Writes the new rows of a watched match once a second, if `--cast` asks for it. After an error it says why, and writes
/// no more; the match is watched on.
#[derive(Drop)]
pub(crate) struct Casting<'r, 'p, 'e, R: Files<File = File> + AllocGlobal, E> {
    rt: &'r R,
    path: &'p str,
    cast: Option<Cast<FolderAt<'r, 'p, R>>>,
    beat: Beat,
    /// The last time of the clock.
    last: Duration,
    refused: &'e mut E,
}

impl<'r, 'p, 'e, R: Files<File = File> + AllocGlobal + Clock, E: Write> Casting<'r, 'p, 'e, R, E> {
    /// Opens the folder, if there is one. `begun` is the time in milliseconds since 1970.
    pub(crate) fn open(
        rt: &'r R,
        asked: &WatchAsked<'p>,
        game: &Game,
        begun: u64,
        refused: &'e mut E,
    ) -> Casting<'r, 'p, 'e, R, E> {
        let last = rt.monotonic().unwrap_or(Duration::from_secs(0));
        let mut casting = Casting {
            rt,
            path: asked.cast.unwrap_or(""),
            cast: None,
            beat: Beat::new(last, RATE),
            last,
            refused,
        };
        if let Some(path) = asked.cast {
            match cast_in(rt, path, asked, game, begun) {
                Ok(cast) => casting.cast = Some(cast),
                Err(error) => casting.tell(error),
            }
        }
        casting
    }

    /// Writes the rows that are not written.
    fn write(&mut self, spectator: &Spectator<'_>) {
        // For the proof: there are at most as many rows as a game has frames.
        let _count = spectator.count();
        if let Err(error) = add_rows(self.rt.alloc(), &mut self.cast, spectator.rows()) {
            self.cast = None;
            self.tell(error);
        }
    }

    /// Says why nothing is written any more.
    fn tell(&mut self, error: CastError) {
        let (number, name, path) = (error.number(), error.name(), self.path);
        let _ = writeln!(self.refused, "refused: cast {number} {name}");
        let _ = writeln!(
            self.refused,
            "{path}: {error}; the match is watched without the cast"
        );
    }
}

impl<'r, 'p, 'e, R: Files<File = File> + AllocGlobal + Clock, E: Write> Picture
    for Casting<'r, 'p, 'e, R, E> {
    fn show(&mut self, spectator: &Spectator<'_>) {
        if self.cast.is_none() {
            return;
        }
        let now = self.rt.monotonic().unwrap_or(self.last);
        self.last = now;
        if self.beat.left(now).is_zero() {
            self.beat.begin(now);
            self.write(spectator);
        }
    }

    fn end(&mut self, spectator: &Spectator<'_>) {
        self.write(spectator);
    }
}

/// Adds new rows to a cast, if there are a cast and new rows.
fn add_rows<F: Folder>(
    alloc: Global,
    cast: &mut Option<Cast<F>>,
    rows: &[Row],
) -> Result<(), CastError>
    requires { length rows.now ≤ MOST_FRAMES }
{
    match cast {
        Some(cast) if cast.count() < rows.len() => cast.go_on(alloc, rows),
        _ => Ok(()),
    }
}

/// Opens the cast of a match in a folder.
fn cast_in<'r, 'p, R: Files<File = File> + AllocGlobal>(
    rt: &'r R,
    path: &'p str,
    asked: &WatchAsked<'_>,
    game: &Game,
    begun: u64,
) -> Result<Cast<FolderAt<'r, 'p, R>>, CastError> {
    let about = About::of(rt.alloc(), game, asked.room, begun)?;
    let (folder, earlier) = FolderAt::open(rt, path, asked.seat.number, &about)?;
    Ok(Cast::open(game, rt.alloc(), folder, earlier))
}
