ghost use Rattle.std.specs.Prelude.{◌≡◌, ◌↔◌, List, ℕ, ◌<◌, ◌≤◌, ◌-◌, ◌+◌, ◌++◌, ◌∷◌, [], length, take, slice_index, IfOk, IsTrue, IsFalse, MatchOption, nat_lt, vec_len, vec_capacity};
ghost use Rattle.cga_form.specs.Limits.{line_limit};
ghost use Rattle.cga_script.specs.Ends.{is_blank_line};
ghost use Rattle.cga_script.specs.Lines.{IsOneLine, without_cr, clipped};
ghost use Rattle.cga_script.specs.Pending.{Pending, kept_of, kept_limit, ready_line, IsPart, CutsLine, IsBlankFront};

use crate::ending::Ending;
use crate::fed::Fed;
use crate::telling_lines::is_blank;
use cga_form::limits::LINE_LIMIT;
use cga_fraction::NoMemory;
use std::alloc::Global;
use std::marker::Model;

// The most bytes of a line that are kept: one more than a line of that length with its CR has, enough to tell
// whether it is long.
const KEPT_LIMIT: usize = 4098;

/// Cuts the pieces of a script into its lines. Of each line it keeps the first 4,098 bytes, so that its size
/// doesn't grow with the script.
#[derive(Drop)]
pub struct Lines {
    kept: Vec<u8>,
    ending: Ending,
}

impl Model for Lines {
    ghost use Rattle.std.specs.Prelude.{◌≤◌, vec_len, vec_capacity};
    ghost use Rattle.cga_script.specs.Pending.{Pending, kept_limit};

    ghost Value = { Pending };

    ghost view = { λ l. record { kept = l.kept.items; ending = l.ending } };

    ghost invariant = { λ l. (kept_limit ≤ vec_capacity l.kept) × (vec_len l.kept ≤ kept_limit) };
}

fn first(bytes: &[u8], most: usize) -> &[u8]
    ensures { result.now ≡ take most bytes.now }
{
    if most < bytes.len() {
        &bytes[..most]
    } else {
        bytes
    }
}

fn line_end(bytes: &[u8]) -> Option<usize>
    ensures { MatchOption result (IsOneLine bytes.now) (λ end. (end < length bytes.now)
        × (slice_index bytes.now end ≡ 10) × IsOneLine (take end bytes.now)) }
{
    bytes.iter().position(|byte| *byte == b'\n')
}

fn without_return(bytes: &[u8]) -> &[u8]
    ensures { result.now ≡ without_cr bytes.now }
{
    match bytes.strip_suffix(b"\r".as_slice()) {
        Some(line) => line,
        None => bytes,
    }
}

// Whether a whole line is blank.
fn is_blank_whole(line: &[u8]) -> bool
    ensures { result ≡ is_blank_line (clipped line.now) }
{
    line.len() <= LINE_LIMIT && is_blank(line)
}

/// How many bytes the first line takes with its LF, where it is seen at once to be blank; otherwise 0. Takes no memory.
pub fn blank_front(piece: &[u8]) -> usize
    ensures within { result ≤ length piece.now }
    ensures blank { 0 < result → IsBlankFront piece.now result }
{
    match line_end(piece) {
        Some(end) if is_blank_whole(without_return(&piece[..end])) => end + 1,
        _ => 0,
    }
}

// Adds the bytes, as many as there is room for.
#[tactic(auto, using(crate::proofs::Kept::take_room))]
fn extend_kept(kept: &mut Vec<u8>, bytes: &[u8])
    requires capacity { kept_limit ≤ vec_capacity kept.old }
    requires len { vec_len kept.old ≤ kept_limit }
    ensures items { kept.new.items ≡ kept_of (kept.old.items ++ bytes.now) }
    ensures room { kept_limit ≤ vec_capacity kept.new }
    ensures most { vec_len kept.new ≤ kept_limit }
{
    let free = KEPT_LIMIT - kept.len();
    let part = first(bytes, free);
    match kept.extend_from_slice(part) {
        Ok(()) => {}
        Err(_) => unreachable!(),
    }
}

impl Lines {
    /// Takes memory for all that is ever kept.
    pub fn new(alloc: Global) -> Result<Lines, NoMemory>
        ensures { IfOk result (λ l. l ≡ record { kept = []; ending = Ending.Open }) }
    {
        let kept = Vec::with_capacity(alloc, KEPT_LIMIT)?;
        Ok(Lines {
            kept,
            ending: Ending::Open,
        })
    }

    fn keep(&mut self, bytes: &[u8], ending: Ending)
        ensures { self.new ≡ record {
          kept = kept_of (self.old.kept ++ bytes.now);
          ending = ending;
        } }
    {
        extend_kept(&mut self.kept, bytes);
        self.ending = ending;
    }

    /// Takes the bytes up to and with the next LF, or the whole piece where it has none. Takes no memory.
    pub fn feed(&mut self, piece: &[u8]) -> Fed
        requires { self.old.ending ≡ Ending.Open }
        ensures cut { (rest : List ℕ) → IsPart rest self.old
            → CutsLine rest piece.now result self.new }
        ensures none { IsFalse result.ready
            → IsOneLine piece.now × (result.taken ≡ length piece.now)
            × (self.new ≡ record {
              kept = kept_of (self.old.kept ++ piece.now);
              ending = Ending.Open;
            }) }
        ensures some { IsTrue result.ready → (0 < result.taken) × (result.taken ≤ length piece.now)
            × (slice_index piece.now (result.taken - 1) ≡ 10)
            × IsOneLine (take (result.taken - 1) piece.now)
            × (self.new ≡ record {
              kept = kept_of (self.old.kept ++ take
                  (result.taken - 1) piece.now);
              ending = Ending.Lf;
            }) }
    {
        match line_end(piece) {
            Some(end) => {
                self.keep(&piece[..end], Ending::Lf);
                Fed {
                    taken: end + 1,
                    ready: true,
                }
            }
            None => {
                self.keep(piece, Ending::Open);
                Fed {
                    taken: piece.len(),
                    ready: false,
                }
            }
        }
    }

    /// The line that is ready, cut to its first 4,096 bytes. Takes no memory.
    pub fn line(&self) -> &[u8]
        ensures { result.now ≡ (ready_line self.now).bytes }
    {
        first(self.unclipped(), LINE_LIMIT)
    }

    /// Whether the line that is ready has more bytes than that.
    pub fn is_long(&self) -> bool
        ensures { result ≡ (ready_line self.now).long }
    {
        LINE_LIMIT < self.unclipped().len()
    }

    // The line that is ready, as far as it is kept.
    fn unclipped(&self) -> &[u8]
        ensures { (ready_line self.now) ≡ record {
          bytes = take line_limit result.now;
          long = nat_lt line_limit (length result.now);
        } }
    {
        match self.ending {
            Ending::Lf => without_return(self.kept.as_slice()),
            Ending::Open | Ending::End => self.kept.as_slice(),
        }
    }

    /// Ends the script's last line, and says whether bytes came after the last LF. Takes no memory.
    pub fn finish(&mut self) -> bool
        requires { self.old.ending ≡ Ending.Open }
        ensures ready { IsFalse result ↔ (self.old.kept ≡ []) }
        ensures line { self.new ≡ record { kept = self.old.kept; ending = Ending.End } }
        ensures last { (rest : List ℕ) → IsPart rest self.old
            → (IsFalse result ↔ (rest ≡ [])) × (ready_line self.new ≡ clipped rest) }
    {
        self.end_line()
    }

    fn end_line(&mut self) -> bool
        ensures ready { IsFalse result ↔ (self.old.kept ≡ []) }
        ensures line { self.new ≡ record { kept = self.old.kept; ending = Ending.End } }
    {
        self.ending = Ending::End;
        !self.kept.is_empty()
    }

    /// Whether no byte of the next line came yet.
    pub fn is_empty(&self) -> bool
        ensures { IsTrue result ↔ (self.now.kept ≡ []) }
    {
        self.kept.is_empty()
    }

    /// Begins the next line. Takes no memory.
    pub fn clear(&mut self)
        ensures { self.new ≡ record { kept = []; ending = Ending.Open } }
    {
        self.kept.clear();
        self.ending = Ending::Open;
    }
}
