//! Row *One box*, read in pieces, and with ends that fail: just what was replied by then, and the status.
use crate::line_by_line::{FlushCount, LineByLine};
use crate::runs::{Outside, calm, run_of, run_on};
use cga_top::Status;
use std::cell::Cell;
use std::test::Fail;

const ONE_BOX: &[u8] =
    b"rules\n1: house -> S(1r, 6, 1r) I(\"cube\")\nend\nlot a 1 0 0 10 8 house\nprint\n";

const REPLIES: &[u8] = b"# ok\n# ok\n# cga_city obj\no a\ng house\n\
v 0.000000 0.000000 0.000000\nv 10.000000 0.000000 0.000000\n\
v 10.000000 0.000000 8.000000\nv 0.000000 0.000000 8.000000\n\
v 0.000000 6.000000 0.000000\nv 10.000000 6.000000 0.000000\n\
v 10.000000 6.000000 8.000000\nv 0.000000 6.000000 8.000000\n\
f 4 3 7 8\nf 3 2 6 7\nf 2 1 5 6\nf 1 4 8 5\nf 8 7 6 5\nf 1 2 3 4\n";

fn first_replies(count: usize) -> &'static [u8] {
    match count {
        0 => b"",
        1 => &REPLIES[..5],
        2 => &REPLIES[..10],
        _ => REPLIES,
    }
}

#[test]
fn reads_pieces_of_any_size(mut rt: HostRuntime) -> Result<(), Fail> {
    for most in [1, 2, 16, 73, 74, 75] {
        let outside = Outside {
            most,
            ..calm(ONE_BOX)
        };
        let run = run_of(&mut rt, outside)?;
        assert_eq!(rt; run.held.as_slice(), REPLIES);
        assert_eq!(rt; run.status, Status::Done);
    }
    Ok(())
}

// The replies to as many lines of the script as end within its first bytes: the third line ends a block.
fn replies_within(count: usize) -> &'static [u8] {
    let feeds = ONE_BOX.iter().take(count).filter(|byte| **byte == b'\n');
    first_replies(feeds.count().saturating_sub(2))
}

#[test]
fn ends_at_a_failed_read(mut rt: HostRuntime) -> Result<(), Fail> {
    for (most, calls) in [(16, 0..6), (69, 1..2)] {
        for call in calls {
            let failed_reads = [call];
            let outside = Outside {
                most,
                failed_reads: failed_reads.as_slice(),
                ..calm(ONE_BOX)
            };
            let run = run_of(&mut rt, outside)?;
            assert_eq!(rt; run.status, Status::ReadFault);
            assert_eq!(rt;
                run.held.as_slice(),
                replies_within((call as usize).saturating_mul(most))
            );
        }
    }
    Ok(())
}

// What is held after so many writes: a reply is written in one, but a print in one for its first line, one for the first
// line of a lot, and one for some solids.
fn first_writes(count: usize) -> &'static [u8] {
    match count {
        3 => &REPLIES[..25],
        4 => &REPLIES[..29],
        _ => first_replies(count),
    }
}

// How many writes are held when each call of the sink is made: each read is followed by a flush, and so is the end.
const WHOLE: &[usize] = &[0, 1, 2, 3, 4, 5, 5];

const IN_PIECES: &[usize] = &[0, 0, 0, 1, 1, 1, 2, 3, 4, 5, 5];

#[test]
fn ends_at_each_failed_write_and_flush(mut rt: HostRuntime) -> Result<(), Fail> {
    for (most, held) in [(4096, WHOLE), (16, IN_PIECES)] {
        for call in 0..held.len() + 1 {
            let outside = Outside {
                most,
                failed_writes: &[call as u64],
                ..calm(ONE_BOX)
            };
            let run = run_of(&mut rt, outside)?;
            let (status, writes) = match held.get(call) {
                Some(writes) => (Status::WriteFault, *writes),
                None => (Status::Done, 5),
            };
            assert_eq!(rt; run.status, status);
            assert_eq!(rt; run.held.as_slice(), first_writes(writes));
        }
    }
    Ok(())
}

#[test]
fn ends_where_the_sink_is_full(mut rt: HostRuntime) -> Result<(), Fail> {
    let outside = Outside {
        room: 40,
        ..calm(ONE_BOX)
    };
    let run = run_of(&mut rt, outside)?;
    assert_eq!(rt; run.status, Status::WriteFault);
    assert_eq!(rt; run.held.as_slice(), &REPLIES[..40]);
    Ok(())
}

// No clause ties the reads of a source to the flushes of a sink.
#[test]
fn replies_to_a_line_before_the_next_is_read(mut rt: HostRuntime) -> Result<(), Fail> {
    let flushed = Cell::new(0);
    let mut script = LineByLine::new(b"print\n\nprint\nprint", &flushed);
    let mut out = FlushCount::new(&flushed);
    let status = run_on(&mut rt, &mut script, &mut out);
    assert_eq!(rt; status, Status::Done);
    assert_eq!(rt; script.flushed_before, [0, 15, 15, 30, 30]);
    assert_eq!(rt; flushed.get(), 45);
    Ok(())
}
