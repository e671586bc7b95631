//! The line of a refusal that no script of `c8play sim` causes: what a watcher hears there is a datagram. The names of
//! the other refusals that no script causes are in `cases/calls`.
use c8_script::write_answers;
use c8_spectator::NotTaken;
use c8_wire::WireError;
use c8_world::Answer;

static ANSWERS: [Answer; 1] = [Answer::Watched(Err(NotTaken::Wire(WireError::Pairs)))];

fn answers() -> &'static [Answer] {
    &ANSWERS
}

const LINE: &str = "1 no wire 10 Pairs\n";

/// Writes the line, and returns whether that succeeded.
fn tell(out: &mut Vec<u8>) -> bool {
    write_answers(out, answers()).is_ok()
}

#[test]
fn a_refusal_has_its_line(rt: HostRuntime) {
    let mut told = Vec::new(rt.alloc());
    assert!(rt; tell(&mut told));
    assert!(rt; told.as_slice() == LINE.as_bytes());
}
