//! Cutting a text.
ghost use Rattle.std.specs.Prelude.{◌≡◌, drop};
ghost use Rattle.cga_trace.specs.Cut.{cut_of, byte_index};

fn byte_index(text: &[u8], byte: u8) -> Option<usize>
    ensures { result ≡ byte_index byte text.now }
{
    text.iter().position(|b| *b == byte)
}

/// What stands before the first such byte, and what stands behind it.
#[tactic(auto, unfolding(crate::specs::Cut::cut_of))]
pub fn cut(text: &[u8], byte: u8) -> (&[u8], &[u8])
    ensures front { result.0.now ≡ (cut_of byte text.now).0 }
    ensures rest { result.1.now ≡ (cut_of byte text.now).1 }
{
    let Some(at) = byte_index(text, byte) else {
        return (text, b"");
    };
    let (front, rest) = text.split_at(at);
    (front, rest.split_at(1).1)
}

/// All behind so many bytes.
pub fn behind(text: &[u8], count: usize) -> &[u8]
    ensures { result.now ≡ drop count text.now }
{
    if count < text.len() {
        text.split_at(count).1
    } else {
        b""
    }
}
