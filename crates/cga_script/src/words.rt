//! What the words of commands stand for.
ghost use Rattle.std.specs.Prelude.{◌≡◌};
ghost use Rattle.cga_form.specs.Reader.{decoded};
ghost use Rattle.cga_script.specs.Heads as heads;
ghost use Rattle.cga_script.specs.Orders as orders;

use crate::heads::{CommandHead, FurtherHead};
use cga_form::chosen::{Kind, chosen};
use cga_syntax::Lexeme;
use cga_word::Mode;

pub(crate) fn head(next: Option<Lexeme>) -> Option<CommandHead>
    ensures { result ≡ decoded heads.a_head next }
{
    chosen(
        next,
        Kind::Name,
        &[
            (b"rules", CommandHead::Rules),
            (b"put", CommandHead::Put),
            (b"drop", CommandHead::Drop),
            (b"attr", CommandHead::Attribute),
            (b"priority", CommandHead::Priority),
            (b"unlot", CommandHead::Unlot),
            (b"print", CommandHead::Print),
            (b"faults", CommandHead::Faults),
            (b"grammar", CommandHead::Grammar),
            (b"stats", CommandHead::Stats),
            (b"quiet", CommandHead::Quiet),
        ],
    )
}

pub(crate) fn further(next: Option<Lexeme>) -> Option<FurtherHead>
    ensures { result ≡ decoded heads.a_further next }
{
    chosen(
        next,
        Kind::Name,
        &[
            (b"city", FurtherHead::City),
            (b"dump", FurtherHead::Dump),
            (b"asset", FurtherHead::Asset),
            (b"dress", FurtherHead::Dress),
            (b"undress", FurtherHead::Undress),
            (b"model", FurtherHead::Model),
            (b"bill", FurtherHead::Bill),
            (b"undo", FurtherHead::Undo),
            (b"redo", FurtherHead::Redo),
            (b"trace", FurtherHead::Trace),
            (b"judge", FurtherHead::Judge),
        ],
    )
}

pub(crate) fn mode(next: Option<Lexeme>) -> Option<Mode>
    ensures { result ≡ decoded orders.a_mode next }
{
    chosen(
        next,
        Kind::Name,
        &[(b"breadth", Mode::Breadth), (b"depth", Mode::Depth)],
    )
}
