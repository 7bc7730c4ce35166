ghost use Rattle.std.specs.Prelude.{◌≡◌, ◌≤◌, ◌∷◌, [], length};
ghost use Rattle.cga_obj.specs.Boxes.{coordinate_text, first_text};
ghost use Rattle.cga_obj.specs.Narrow.{IsNarrow};

use crate::corner::{Corner, is_far};
use crate::piece::Piece;
use crate::span::Span;
use cga_fraction::Fraction;
use cga_word::Axis;

/// The texts of both ends of a span.
#[derive(Drop)]
pub(crate) struct Ends {
    axis: Axis,
    near: Piece,
    far: Piece,
}

// The decimals of a coordinate, and a byte behind them.
fn coordinate(decimals: u8, behind: u8, number: Fraction) -> Piece
    requires few { decimals ≤ 9 }
    requires narrow { IsNarrow number }
    ensures value { result ≡ coordinate_text decimals (behind ∷ []) number }
    ensures short { length result ≤ 32 }
{
    let mut piece = Piece::empty();
    piece.put(behind);
    piece.put_decimal(number, decimals);
    piece
}

// The first coordinate of a line.
fn first_coordinate(decimals: u8, number: Fraction) -> Piece
    requires few { decimals ≤ 9 }
    requires narrow { IsNarrow number }
    ensures { result ≡ first_text decimals number }
{
    let mut piece = coordinate(decimals, b' ', number);
    piece.put(b' ');
    piece.put(b'v');
    piece
}

impl Ends {
    ghost use Rattle.std.specs.Prelude.{◌≡◌, ◌≤◌};
    ghost use Rattle.cga_obj.specs.Boxes.{AreNarrow, end_text, first_ends, further_ends};

    /// The first coordinates of lines.
    pub(crate) fn first(decimals: u8, span: &Span) -> Ends
        requires few { decimals ≤ 9 }
        requires narrow { AreNarrow span.now }
        ensures { result ≡ first_ends decimals span.now }
    {
        Ends {
            axis: span.axis,
            near: first_coordinate(decimals, span.near),
            far: first_coordinate(decimals, span.far),
        }
    }

    /// Further coordinates, with a byte behind each.
    pub(crate) fn further(decimals: u8, behind: u8, span: &Span) -> Ends
        requires few { decimals ≤ 9 }
        requires narrow { AreNarrow span.now }
        ensures { result ≡ further_ends decimals behind span.now }
    {
        Ends {
            axis: span.axis,
            near: coordinate(decimals, behind, span.near),
            far: coordinate(decimals, behind, span.far),
        }
    }

    /// The text of the end at which a corner is.
    pub(crate) fn at(&self, corner: Corner) -> &[u8]
        ensures { result.now ≡ end_text self.now corner }
    {
        if is_far(corner, self.axis) {
            return self.far.as_slice();
        }
        self.near.as_slice()
    }
}
