//! A disk in memory, and a log on it.
use crate::answers::Answers;
use crate::words::{arm_in, bytes_in, count_in, needed, number_in, size_in, unreadable};
use c8_disk::{Arm, Disk, DiskError, LONGEST_WRITE, MemDisk};
use c8_log::{BODY_LENGTH, Block, Log, LogError, kept_len};
use std::alloc::Global;
use std::io;

/// A disk, or an open log.
#[derive(Drop)]
pub(crate) struct Hand {
    disk: Option<MemDisk>,
    log: Option<Log<MemDisk>>,
}

impl Hand {
    pub(crate) fn empty() -> Hand {
        Hand {
            disk: None,
            log: None,
        }
    }

    /// Does what a command says of the disk.
    pub(crate) fn disk(
        &mut self,
        alloc: Global,
        words: &[&str],
        block: &[&[u8]],
        out: &mut Answers,
    ) -> io::Result<()> {
        match words {
            ["new", capacity, calls] => {
                let (capacity, calls) = (count_in(capacity)?, count_in(calls)?);
                self.log = None;
                self.disk = Some(MemDisk::new(alloc, capacity, calls)?);
            }
            ["arm", how @ ..] => self.arm(arm_in(how)?),
            ["crash", pick] => self.crash(number_in(pick)?),
            _ => call_disk(alloc, needed(self.disk.as_mut())?, words, block, out)?,
        }
        Ok(())
    }

    /// Sets which calls of the disk fail.
    fn arm(&mut self, arm: Arm) {
        if let Some(log) = &mut self.log {
            log.arm(arm);
        } else if let Some(disk) = &mut self.disk {
            disk.arm(arm);
        }
    }

    /// Closes the log. The disk then holds an image that a crash may leave.
    fn crash(&mut self, pick: u64) {
        self.close();
        if let Some(disk) = self.disk.take() {
            self.disk = Some(disk.crash(pick));
        }
    }

    fn close(&mut self) {
        if let Some(log) = self.log.take() {
            self.disk = Some(log.close());
        }
    }

    /// Opens a log on the disk; an open one is closed first.
    fn open(&mut self, out: &mut Answers) -> io::Result<()> {
        self.close();
        let Some(disk) = self.disk.take() else {
            return Err(unreadable());
        };
        match Log::open(disk) {
            Ok(log) => {
                let many = log.len();
                self.log = Some(log);
                out.tell(format_args!("bodies {many}"))
            }
            Err((error, disk)) => {
                self.disk = Some(disk);
                refuse(error, out)
            }
        }
    }

    /// Does what a command says of the log.
    pub(crate) fn log(
        &mut self,
        alloc: Global,
        words: &[&str],
        block: &[&[u8]],
        out: &mut Answers,
    ) -> io::Result<()> {
        match words {
            ["open"] => self.open(out),
            ["close"] => {
                self.close();
                Ok(())
            }
            _ => call_log(alloc, needed(self.log.as_mut())?, words, block, out),
        }
    }

    /// What the disk holds; nothing while a log is open on it.
    pub(crate) fn image(&self) -> &[u8] {
        match &self.disk {
            Some(disk) => disk.bytes(),
            None => &[],
        }
    }

    /// The log, if it is open.
    pub(crate) fn open_log(&mut self) -> Option<&mut Log<MemDisk>> {
        self.log.as_mut()
    }
}

fn refuse(error: LogError, out: &mut Answers) -> io::Result<()> {
    out.refuse("log", error.number(), error.name(), error)
}

/// Makes a call of a log.
fn call_log(
    alloc: Global,
    log: &mut Log<MemDisk>,
    words: &[&str],
    block: &[&[u8]],
    out: &mut Answers,
) -> io::Result<()> {
    match words {
        ["append", bytes @ ..] => append(log, &bytes_in(alloc, bytes, block, BODY_LENGTH)?, out),
        ["read", number] => read(log, count_in(number)?, out),
        ["bodies"] => read_all(log, out),
        ["debug"] => out.tell(format_args!("{log:?}")),
        _ => Err(unreadable()),
    }
}

fn append(log: &mut Log<MemDisk>, body: &[u8], out: &mut Answers) -> io::Result<()> {
    let Some(body) = body.first_chunk::<BODY_LENGTH>() else {
        return Err(unreadable());
    };
    match log.append(body) {
        Ok(slot) => out.tell(slot),
        Err(error) => refuse(error, out),
    }
}

/// Prints the body with a number.
fn read(log: &mut Log<MemDisk>, number: u32, out: &mut Answers) -> io::Result<()> {
    if number >= log.len() {
        return Err(unreadable());
    }
    let mut block = Block::new();
    match log.read(number, &mut block) {
        Ok(slot) => {
            let body = slot.body;
            out.spell(number, body)
        }
        Err(error) => refuse(error, out),
    }
}

fn read_all(log: &mut Log<MemDisk>, out: &mut Answers) -> io::Result<()> {
    for number in 0..log.len() {
        read(log, number, out)?;
    }
    Ok(())
}

/// Makes a call of a disk.
fn call_disk(
    alloc: Global,
    disk: &mut MemDisk,
    words: &[&str],
    block: &[&[u8]],
    out: &mut Answers,
) -> io::Result<()> {
    match words {
        ["write", place, bytes @ ..] => {
            let place = count_in(place)?;
            write_at(disk, place, &bytes_in(alloc, bytes, block, 0)?, out)
        }
        ["read", place, many] => read_at(disk, count_in(place)?, size_in(many)?, out),
        ["sync"] => tell(disk.sync(), out),
        ["held"] => out.spell(disk.len(), disk.bytes()),
        ["kept"] => out.tell(kept_len(disk.bytes())),
        ["debug"] => out.tell(format_args!("{disk:?}")),
        _ => Err(unreadable()),
    }
}

/// Prints the answer of a call of a disk.
fn tell(answer: Result<(), DiskError>, out: &mut Answers) -> io::Result<()> {
    match answer {
        Ok(()) => out.tell("ok"),
        Err(error) => out.refuse("disk", error.number(), error.name(), error),
    }
}

/// Writes bytes to a disk, if they are short enough and begin within what it holds.
pub fn write_at(disk: &mut MemDisk, place: u32, bytes: &[u8], out: &mut Answers) -> io::Result<()> {
    if place > disk.len() || bytes.len() > LONGEST_WRITE {
        return Err(unreadable());
    }
    tell(disk.write_at(place, bytes), out)
}

/// The most bytes that one command reads.
const MOST: usize = 144;

/// Prints what a read gives, if the bytes are within what the disk holds.
fn read_at(disk: &mut MemDisk, place: u32, many: usize, out: &mut Answers) -> io::Result<()> {
    let mut room = [0; MOST];
    let (length, at) = (disk.len() as usize, place as usize);
    if many > MOST || at > length || many > length - at {
        return Err(unreadable());
    }
    match disk.read_at(place, &mut room[..many]) {
        Ok(()) => out.spell("read", &room[..many]),
        Err(error) => tell(Err(error), out),
    }
}
