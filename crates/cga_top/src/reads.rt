ghost use Rattle.std.specs.Prelude.{◌≡◌, [], take};
ghost use Rattle.cga_top.specs.State.{start};
ghost use Rattle.cga_top.specs.Outside.{outside_of};
ghost use Rattle.cga_top.specs.Lived.{IsHere};
ghost use Rattle.cga_top.specs.Ready.{IsReady};
ghost use Rattle.cga_top.specs.Reads.{ReadsTo, pending_after};

use crate::pump::reply_to;
use crate::read_end::ReadEnd;
use crate::session::Session;
use crate::talker::Talker;
use cga_expand::Expansions;
use cga_fraction::Tests;
use cga_outside::{Failed, Sink, Source};
use cga_script::Lines;
use std::sync::ledger::Ledger;

// The most bytes of a script.
const LIMIT: usize = 67_108_864;

// The most bytes of one read.
const READ_LIMIT: usize = 4096;

fn first(bytes: &[u8], most: usize) -> &[u8]
    ensures { result.now ≡ take most bytes.now }
{
    if most < bytes.len() {
        &bytes[..most]
    } else {
        bytes
    }
}

/// Replies to the lines of a script while it is read, up to the limit. What a read completes is replied to and
/// flushed before the next read.
pub(crate) fn read_lines<W: Talker, S: Source, K: Sink, E: Ledger, T: Ledger>(
    session: &mut Session,
    lines: &mut Lines,
    script: &mut S,
    out: &mut K,
    expansions: &mut Expansions<E>,
    tests: &mut Tests<T>,
) -> ReadEnd
    requires session { IsHere (start session.old.decimals) session.old }
    requires ready { IsReady session.old }
    requires lines { lines.old ≡ pending_after [] }
    ensures ready { result ≡ ReadEnd.Ended → IsReady session.new }
    ensures end { ReadsTo W.told session.old.decimals result
        (outside_of S.Source K.Sink script.old out.old expansions.old)
        (outside_of S.Source K.Sink script.new out.new expansions.new) session.new lines.new }
{
    let mut buffer = [0u8; READ_LIMIT];
    let mut total: usize = 0;
    while total <= LIMIT {
        match script.read(&mut buffer) {
            Err(Failed) => return ReadEnd::Failed,
            Ok(0) => return ReadEnd::Ended,
            Ok(count) => {
                let chunk = &buffer[..count];
                let piece = first(chunk, LIMIT - total);
                match reply_to::<W, _, _, _>(session, lines, piece, out, expansions, tests) {
                    Ok(()) => {}
                    Err(halt) => return ReadEnd::Halted(halt),
                }
                total += count;
            }
        }
    }
    ReadEnd::TooLong
}
